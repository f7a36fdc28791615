//! The names that linkers make of themselves, and no object defines.
ghost use Rattle.std.specs.Prelude.{◌≡◌, ◌||◌};
ghost use Rattle.std.specs.List.{list_any};
ghost use Rattle.std.specs.Str.{bytes_eq};
ghost use Rattle.elf_model.specs.Link.LinkerNames.{is_start_name, is_stop_name};
ghost use Rattle.judge_model.specs.Tables.{is_made_name, is_slot_name, made_names};

use check_link::output_bound;

/// Whether a name is one of dynamic linking, of what few images have, or of an end of the list of call frames.
fn is_listed(name: &[u8]) -> bool
    ensures { result ≡ list_any (bytes_eq name.now) made_names }
{
    if name == b"_DYNAMIC".as_slice() || name == b"_PROCEDURE_LINKAGE_TABLE_".as_slice() {
        return true;
    }
    if name == b"_TLS_MODULE_BASE_".as_slice() || name == b"__GNU_EH_FRAME_HDR".as_slice() {
        return true;
    }
    if name == b"__dso_handle".as_slice() || name == b"__rela_iplt_start".as_slice() {
        return true;
    }
    if name == b"__rela_iplt_end".as_slice() || name == b"__EH_FRAME_BEGIN__".as_slice() {
        return true;
    }
    name == b"__FRAME_END__".as_slice()
}

/// Whether a name is `__start_N` or `__stop_N`.
fn is_of_output(name: &[u8]) -> bool
    ensures { result ≡ (is_start_name name.now || is_stop_name name.now) }
{
    output_bound(name).is_some()
}

/// Whether a name is one that mold gives a slot of the GOT: the name of what it has, and what that is.
fn is_of_slot(name: &[u8]) -> bool
    ensures { result ≡ is_slot_name name.now }
{
    name.ends_with(b"$got") || name.ends_with(b"$gottp")
}

/// Whether a name is one that linkers make of themselves.
pub fn is_made_name(name: &[u8]) -> bool
    ensures { result ≡ is_made_name name.now }
{
    is_listed(name) || is_of_slot(name) || is_of_output(name)
}
