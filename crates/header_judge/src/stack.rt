//! Whether the stack may be executed: where the words ask for it; or where they don't forbid it and an object asks, by the flags
//! of its `.note.GNU-stack` or by having none. And whether it must be: where the words ask, or they don't forbid it and a note does.
ghost use Rattle.std.specs.Prelude.{◌≡◌, ◌↔◌, ◌<◌, All, Any, IsTrue, length};
ghost use Rattle.std.specs.List.{list_any};
ghost use Rattle.check_load.specs.Views.{loaded_views};
ghost use Rattle.elf_model.specs.Inputs.ObjectFile as object_file;
ghost use Rattle.judge_model.specs.Headers.{IsExecutedStack, IsStack, asks_for_stack, has_stack_note, is_executing_note, is_stack_note};
ghost use Rattle.header_judge.specs.Rights.{AreStacksTold, HasStack, asks, may_execute, must_execute};

use check_load::Loaded;
use elf_model::{PF_X, PT_GNU_STACK, ProgramHeader};
use elf_read::ObjectFile;

/// Whether a section is that note, and says that the stack is executed.
fn asks(object: &ObjectFile<'_>, i: usize) -> bool
    requires { i < length (object_file.sections object.now) }
    ensures { result ≡ asks object.now (object_file.section (object_file.sections object.now) i) }
{
    object.section(i).is_executable() && is_stack_note(object, i)
}

/// Whether a section is the note on the stack.
fn is_stack_note(object: &ObjectFile<'_>, i: usize) -> bool
    requires { i < length (object_file.sections object.now) }
    ensures { result
        ≡ is_stack_note object.now (object_file.section (object_file.sections object.now) i) }
{
    match object.section_name(i) {
        Some(name) => name == b".note.GNU-stack".as_slice(),
        None => false,
    }
}

/// Whether an object's note on the stack asks for one that can be executed.
fn is_executing_note(object: &ObjectFile<'_>) -> bool
    ensures { result ≡ is_executing_note object.now }
{
    for i in 0..object.sections().len() {
        if asks(object, i) {
            return true;
        }
    }
    false
}

/// Whether an object has a note on the stack.
fn has_stack_note(object: &ObjectFile<'_>) -> bool
    ensures { result ≡ has_stack_note object.now }
{
    for i in 0..object.sections().len() {
        if is_stack_note(object, i) {
            return true;
        }
    }
    false
}

/// Whether an object asks for a stack that can be executed: its note does, or it has none.
fn asks_for_stack(object: &ObjectFile<'_>) -> bool
    ensures { result ≡ asks_for_stack object.now }
{
    !has_stack_note(object) || is_executing_note(object)
}

/// Whether one of some objects does.
fn do_some_ask(objects: &[Loaded<'_>]) -> bool
    ensures { result ≡ list_any (λ o. asks_for_stack o.object) objects.now }
{
    objects.iter().any(|o| asks_for_stack(&o.object))
}

/// Whether the words ask for a stack that can be executed, or say nothing of it and an object does.
pub fn may_execute(executes: Option<bool>, objects: &[Loaded<'_>]) -> bool
    ensures { result ≡ may_execute executes (loaded_views objects.now) }
{
    match executes {
        Some(says) => says,
        None => do_some_ask(objects),
    }
}

/// Whether the note of one of some objects asks for a stack that can be executed.
fn do_notes_ask(objects: &[Loaded<'_>]) -> bool
    ensures { result ≡ list_any (λ o. is_executing_note o.object) objects.now }
{
    objects.iter().any(|o| is_executing_note(&o.object))
}

/// Whether the words ask for a stack that can be executed, or say nothing of it and an object's note does.
pub fn must_execute(executes: Option<bool>, objects: &[Loaded<'_>]) -> bool
    ensures { result ≡ must_execute executes (loaded_views objects.now) }
{
    match executes {
        Some(asked) => asked,
        None => do_notes_ask(objects),
    }
}

fn has_stack(may: bool, h: &ProgramHeader) -> bool
    ensures { IsTrue result ↔ HasStack may h.now }
{
    h.p_type != PT_GNU_STACK || h.p_flags & PF_X != PF_X || may
}

/// Whether no header makes the stack executable where it may not be.
pub fn are_stacks(may: bool, headers: &[ProgramHeader]) -> bool
    ensures { IsTrue result ↔ All (HasStack may) headers.now }
{
    headers.iter().all(|h| has_stack(may, h))
}

fn is_stack(h: &ProgramHeader) -> bool
    ensures { IsTrue result ↔ IsStack h.now }
{
    h.p_type == PT_GNU_STACK
}

fn is_executed_stack(h: &ProgramHeader) -> bool
    ensures { IsTrue result ↔ IsExecutedStack h.now }
{
    h.p_type == PT_GNU_STACK && h.p_flags & PF_X == PF_X
}

fn has_stack_header(headers: &[ProgramHeader]) -> bool
    ensures { IsTrue result ↔ Any IsStack headers.now }
{
    headers.iter().any(|h| is_stack(h))
}

fn has_executed_stack(headers: &[ProgramHeader]) -> bool
    ensures { IsTrue result ↔ Any IsExecutedStack headers.now }
{
    headers.iter().any(|h| is_executed_stack(h))
}

/// Whether a header makes the stack executable where it must be, and there is one where it may not be.
pub fn are_stacks_told(must: bool, may: bool, headers: &[ProgramHeader]) -> bool
    ensures { IsTrue result ↔ AreStacksTold must may headers.now }
{
    if must && !has_executed_stack(headers) {
        return false;
    }
    may || has_stack_header(headers)
}
