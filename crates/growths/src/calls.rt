//! The calls of a link: what is read, loaded, resolved, prepared, written and checked.
use crate::Row;
use crate::comparing_sink::ComparingSink;
use crate::refusals::{Run, answered};
use ar_index::Archive;
use byteview::View;
use command::{Plan, read_words};
use elf_model::InputFile;
use elf_read::Object;
use image_write::{Linkage, WriteFault, image, write_image};
use ld_main::{check, link, link_map, prepare};
use linkmap::{LinkMap, escape, ordered, print, read};
use loader_model::Memory;
use resolve::resolve;
use search::{Loaded, load};
use std::alloc::Global;

/// Reads each file, as an archive where its name ends in `.a`, else as an object.
fn read_each(run: &Run<'_>, files: &[InputFile]) {
    for file in files {
        if file.name.ends_with(".a") {
            read_archive(run, file);
        } else {
            read_object(run, file);
        }
    }
}

fn read_object(run: &Run<'_>, file: &InputFile) {
    let answer = answered!(
        run,
        "Object::read",
        Object::read(run.alloc(), View::new(&file.bytes))
    );
    if let Some(object) = answer {
        let [sections, symbols] = [object.sections().len(), object.symbols().len()];
        let _ = println!(run.rt;
            "Object::read {}: {sections} sections, {symbols} symbols",
            file.name
        );
    }
}

fn read_archive(run: &Run<'_>, file: &InputFile) {
    let answer = answered!(
        run,
        "Archive::read",
        Archive::read(run.alloc(), View::new(&file.bytes))
    );
    if let Some(archive) = answer {
        let entries = archive.index().map_or(0, |index| index.len());
        let members = archive.members().len();
        let _ = println!(run.rt;
            "Archive::read {}: {entries} entries, {members} members",
            file.name
        );
    }
}

/// Reads the words, and loads and resolves what they name.
fn read_and_load(run: &Run<'_>, row: &Row) {
    let Some(plan) = answered!(run, "read_words", read_words(run.alloc(), &row.words)) else {
        return;
    };
    let _ = println!(run.rt;
        "read_words: {} items, entry {}",
        plan.items.len(),
        plan.entry
    );
    load_plan(run, &plan, &row.files);
}

fn load_plan<'a>(run: &Run<'_>, plan: &Plan<'a>, files: &'a [InputFile]) {
    let Some(loaded) = answered!(run, "load", load(run.alloc(), plan, files)) else {
        return;
    };
    for object in loaded.objects() {
        let dropped = object.dropped.sections();
        let _ = println!(run.rt;
            "load: {} {} {}, without {dropped:?}",
            object.item, object.offset, object.path
        );
    }
    resolve_loaded(run, &loaded);
}

fn resolve_loaded(run: &Run<'_>, loaded: &Loaded<'_>) {
    let Some(resolved) = answered!(run, "resolve", resolve(run.alloc(), loaded)) else {
        return;
    };
    let definitions = resolved.definitions();
    for place in 0..definitions.len() {
        let definition = definitions.at(place);
        let name = str::from_utf8(definition.name).unwrap_or("no text");
        let _ = println!(run.rt;
            "resolve: {name} of {} {}",
            definition.object, definition.number
        );
    }
}

/// Links as one call.
fn link_whole(run: &Run<'_>, row: &Row) {
    let Some(output) = answered!(run, "link", link(run.alloc(), &row.files, &row.words)) else {
        return;
    };
    run.tell_bytes("link, its image", &output.image, &row.image);
    run.tell_bytes("link, its map", &output.map, &row.map);
}

/// Prepares a link, and makes its image and its map.
fn link_by_parts(run: &Run<'_>, row: &Row) {
    let answer = answered!(run, "prepare", prepare(run.alloc(), &row.files, &row.words));
    let Some(linkage) = answer else {
        return;
    };
    let _ = println!(run.rt; "prepare: entry {:#x}", linkage.parts().entry);
    if let Some(bytes) = answered!(run, "image", image(run.alloc(), &linkage)) {
        run.tell_bytes("image", &bytes, &row.image);
    }
    write(run, row, &linkage);
    print_map(run, row, &linkage);
}

/// Whether a link's image is written as the wanted bytes. After a refusal the device has taken nothing.
fn writes_wanted(alloc: Global, linkage: &Linkage<'_>, wanted: &[u8]) -> Result<bool, WriteFault> {
    let mut sink = ComparingSink::new(wanted);
    match write_image(alloc, linkage, &mut sink) {
        Ok(()) => Ok(sink.is_whole()),
        Err(WriteFault::Memory) if sink.taken != 0 => Ok(false),
        Err(fault) => Err(fault),
    }
}

fn write(run: &Run<'_>, row: &Row, linkage: &Linkage<'_>) {
    let answer = answered!(
        run,
        "write_image",
        writes_wanted(run.alloc(), linkage, &row.image)
    );
    if let Some(same) = answer {
        let _ = println!(run.rt; "write_image: {same}");
    }
}

/// Prints a map, whose lines must be in order, and tells whether its text is the wanted one.
fn print_text(run: &Run<'_>, call: &str, map: &LinkMap, wanted: &[u8]) {
    if !ordered(map) {
        let _ = println!(run.rt; "{call}: lines out of order");
        return;
    }
    if let Some(text) = answered!(run, "print", print(run.alloc(), map)) {
        run.tell_bytes(call, &text, wanted);
    }
}

fn print_map(run: &Run<'_>, row: &Row, linkage: &Linkage<'_>) {
    if let Some(map) = answered!(run, "link_map", link_map(run.alloc(), linkage)) {
        print_text(run, "print", &map, &row.map);
    }
}

/// Reads the wanted map, and prints what was read.
fn read_map(run: &Run<'_>, row: &Row) {
    if let Some(map) = answered!(run, "linkmap::read", read(run.alloc(), &row.map)) {
        print_text(run, "linkmap::read", &map, &row.map);
    }
}

fn escape_name(run: &Run<'_>) {
    if let Some(spelling) = answered!(run, "escape", escape(run.alloc(), b".text")) {
        run.tell_bytes("escape", &spelling, b".text");
    }
}

/// Loads the wanted image, and checks it with the wanted map.
fn check_wanted(run: &Run<'_>, row: &Row) {
    let view = View::new(&row.image);
    if let Some(memory) = answered!(
        run,
        "Memory::load",
        Memory::load(run.alloc(), View::new(view.bytes()))
    ) {
        let segments = memory.segments().len();
        let _ = println!(run.rt;
            "Memory::load: entry {:#x}, {segments} segments",
            memory.entry()
        );
    }
    let answer = answered!(
        run,
        "check",
        check(run.alloc(), &row.files, &row.words, &row.image, &row.map)
    );
    if let Some(verdict) = answer {
        let _ = println!(run.rt; "check: {verdict:?}");
    }
}

/// Makes each call of a row.
pub fn run_calls(run: &Run<'_>, row: &Row) {
    read_each(run, &row.files);
    read_and_load(run, row);
    link_whole(run, row);
    link_by_parts(run, row);
    escape_name(run);
    read_map(run, row);
    check_wanted(run, row);
}
