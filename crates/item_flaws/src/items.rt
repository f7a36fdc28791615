//! Items of a plan as they are opened.
ghost use Rattle.std.specs.Prelude.{◌≡◌, [], IfOk, IsTrue};
ghost use Rattle.ar_index.specs.FileBytes.{is_whole};
ghost use Rattle.command.specs.Views.{item_of, texts_of};
ghost use Rattle.elf_model.specs.Inputs.Opening.{HasFile, opened_item};
ghost use Rattle.opening.specs.Held.{all_files};
ghost use Rattle.opening.specs.Opened.{item_view};
ghost use Rattle.item_flaws.specs.ItemFlaws.{IsOpenedAt};

use ar_index::FileBytes;
use command::Item;
use opening::{FileSet, OpenedItem, find_source};
use search::Reached;
use std::alloc::{AllocError, Global};

/// Item `i`, which has a file, as it is opened.
pub(crate) fn opened_item<'a>(
    alloc: Global,
    files: &FileSet<'a>,
    directories: &[&str],
    i: usize,
    item: &Item<'_>,
) -> Result<OpenedItem<'a>, AllocError>
    requires whole { files.now.parts ≡ [] }
    requires there { HasFile (all_files files.now) (texts_of directories.now) (item_of item.now) }
    ensures opened { IfOk result (λ o. item_view o
        ≡ opened_item (all_files files.now) (texts_of directories.now) i (item_of item.now)) }
    ensures whole { IfOk result (λ o. IsTrue (is_whole o.bytes)) }
{
    let Some((path, bytes)) = find_source(alloc, files, directories, item.source)? else {
        unreachable!()
    };
    Ok(OpenedItem {
        number: i as u64,
        path,
        bytes,
        archive: item.archive,
        whole: item.whole,
        group: item.group,
    })
}

/// Where an opened item is, whose file was read whole.
pub(crate) fn reached<'a>(item: &OpenedItem<'a>) -> Reached<'a>
    requires { IsTrue (is_whole item.now.bytes) }
    ensures at { IsOpenedAt result (item_view item.now) }
    ensures start { result.offset ≡ 0 }
{
    let FileBytes::Whole(bytes) = item.bytes else {
        unreachable!()
    };
    Reached {
        item: item.number,
        path: item.path,
        offset: 0,
        bytes,
    }
}
