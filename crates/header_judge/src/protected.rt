//! What PT_GNU_RELRO makes read-only: whole pages, and in them no code, and nothing that the program may write.
ghost use Rattle.std.specs.Prelude.{◌≡◌, ◌↔◌, ◌+◌, ◌/◌, ◌*◌, All, IsTrue};
ghost use Rattle.check_link.specs.Views.{placed_view, placed_views};
ghost use Rattle.judge_model.specs.Headers.{is_used_late};
ghost use Rattle.header_judge.specs.Rights.{IsApart, IsSpared, SparesAll};

use crate::early_names::is_early_name;
use check_link::{Placed, load_size};
use elf_model::ProgramHeader;

const PT_GNU_RELRO: u32 = 0x6474_e552;

const PAGE: u64 = 4096;

/// The number of the page in which a header's memory ends.
fn last_page(h: &ProgramHeader) -> u64
    ensures { result ≡ (h.now.p_vaddr + h.now.p_memsz) / 4096 }
{
    let bytes = h.p_vaddr % PAGE + h.p_memsz % PAGE;
    h.p_vaddr / PAGE + h.p_memsz / PAGE + bytes / PAGE
}

/// Whether a header makes no byte of a placed thing read-only: it does so from the first page's beginning to the last one's.
fn is_apart(h: &ProgramHeader, q: &Placed<'_>) -> bool
    ensures { IsTrue result ↔ IsApart h.now (placed_view q.now) }
{
    let size = load_size(&q.piece);
    let first = h.p_vaddr / PAGE * PAGE;
    let last = last_page(h);
    if size == 0 {
        return true;
    }
    if last <= h.p_vaddr / PAGE || last <= q.at / PAGE {
        return true;
    }
    q.at < first && size <= first - q.at
}

/// Whether a program may execute a placed thing, or write it once it runs.
fn is_used_late(q: &Placed<'_>) -> bool
    ensures { result ≡ is_used_late (placed_view q.now) }
{
    if q.piece.header.is_executable() {
        return true;
    }
    q.piece.header.is_writable() && !is_early_name(q.piece.name)
}

fn is_spared(h: &ProgramHeader, q: &Placed<'_>) -> bool
    ensures { IsTrue result ↔ IsSpared h.now (placed_view q.now) }
{
    !is_used_late(q) || is_apart(h, q)
}

fn are_spared(h: &ProgramHeader, placed: &[Placed<'_>]) -> bool
    ensures { IsTrue result ↔ All (λ q. IsSpared h.now (placed_view q)) placed.now }
{
    placed.iter().all(|q| is_spared(h, q))
}

/// Whether a header makes nothing read-only that the program may execute or write.
fn spares_all(placed: &[Placed<'_>], h: &ProgramHeader) -> bool
    ensures { IsTrue result ↔ SparesAll (placed_views placed.now) h.now }
{
    if h.p_type != PT_GNU_RELRO {
        return true;
    }
    are_spared(h, placed)
}

/// Whether no header makes anything read-only that the program may execute or write.
pub fn do_all_spare(placed: &[Placed<'_>], headers: &[ProgramHeader]) -> bool
    ensures { IsTrue result ↔ All (SparesAll (placed_views placed.now)) headers.now }
{
    headers.iter().all(|h| spares_all(placed, h))
}
