//! What words say beside the profile's part of a plan.
ghost use Rattle.std.specs.Prelude.{◌≡◌, IfOk, bit_or, fold, map};
ghost use Rattle.std.specs.List.{filter_map, list_any};
ghost use Rattle.judge_model.specs.Words as spec;
ghost use Rattle.foreign_words.specs.Says.{says_view, says_views, start_view};
ghost use Rattle.foreign_words.specs.Wider.{IsWider};

use crate::says::{Says, Start, Switch};
use std::alloc::{AllocError, Global};

/// What words say that the profile's don't: whether sections are collected (`--gc-sections`), call frames get a table
/// (`--eh-frame-hdr`), the first of two definitions counts
/// (`-z muldefs`), code may be written (`-N`), the stack executed or not (`-z execstack`, `-z noexecstack`), the bits of the property note that they ask
/// for, where the first segment begins, where output sections do, and whether LOCAL names may be missing (`-x`).
#[derive(Debug, Drop)]
pub struct Wider<'w> {
    pub collects: bool,
    pub tables: bool,
    pub takes_first: bool,
    pub writes_code: bool,
    pub executes_stack: Option<bool>,
    pub features: u64,
    pub segment: Option<u64>,
    pub starts: Vec<Start<'w>>,
    pub strips_local: bool,
}

fn collects_in(says: &Says<'_>) -> Option<bool>
    ensures { result ≡ spec.collects_in (says_view says.now) }
{
    match says {
        Says::Switch(Switch::Collects(collects)) => Some(*collects),
        _ => None,
    }
}

fn tables_in(says: &Says<'_>) -> Option<bool>
    ensures { result ≡ spec.tables_in (says_view says.now) }
{
    match says {
        Says::Switch(Switch::Tables(tables)) => Some(*tables),
        _ => None,
    }
}

fn stack_in(says: &Says<'_>) -> Option<bool>
    ensures { result ≡ spec.stack_in (says_view says.now) }
{
    match says {
        Says::Switch(Switch::ExecutesStack(executes)) => Some(*executes),
        _ => None,
    }
}

fn feature_in(says: &Says<'_>) -> Option<u64>
    ensures { result ≡ spec.feature_in (says_view says.now) }
{
    match says {
        Says::Switch(Switch::Feature(bits)) => Some(*bits),
        _ => None,
    }
}

fn segment_in(says: &Says<'_>) -> Option<u64>
    ensures { result ≡ spec.segment_in (says_view says.now) }
{
    match says {
        Says::Segment(address) => Some(*address),
        _ => None,
    }
}

fn takes_first(says: &Says<'_>) -> bool
    ensures { result ≡ spec.is_takes_first (says_view says.now) }
{
    match says {
        Says::Switch(Switch::TakesFirst) => true,
        _ => false,
    }
}

fn writes_code(says: &Says<'_>) -> bool
    ensures { result ≡ spec.is_writes_code (says_view says.now) }
{
    match says {
        Says::Switch(Switch::WritesCode) => true,
        _ => false,
    }
}

fn strips_local(says: &Says<'_>) -> bool
    ensures { result ≡ spec.is_strips_local (says_view says.now) }
{
    match says {
        Says::Switch(Switch::StripsLocal) => true,
        _ => false,
    }
}

/// Whether sections are collected, by the last word of that.
fn last_collects(all: &[Says<'_>]) -> Option<bool>
    ensures { result ≡ spec.last_of spec.collects_in (says_views all.now) }
{
    let mut last = None;
    for says in all {
        if let Some(collects) = collects_in(says) {
            last = Some(collects);
        }
    }
    last
}

/// Whether call frames get a table, by the last word of that.
fn last_tables(all: &[Says<'_>]) -> Option<bool>
    ensures { result ≡ spec.last_of spec.tables_in (says_views all.now) }
{
    let mut last = None;
    for says in all {
        if let Some(tables) = tables_in(says) {
            last = Some(tables);
        }
    }
    last
}

/// Whether the stack is executable, by the last word of that.
fn last_stack(all: &[Says<'_>]) -> Option<bool>
    ensures { result ≡ spec.last_of spec.stack_in (says_views all.now) }
{
    let mut last = None;
    for says in all {
        if let Some(executes) = stack_in(says) {
            last = Some(executes);
        }
    }
    last
}

/// Where the first segment begins, by the last word of that.
fn last_segment(all: &[Says<'_>]) -> Option<u64>
    ensures { result ≡ spec.last_of spec.segment_in (says_views all.now) }
{
    let mut last = None;
    for says in all {
        if let Some(address) = segment_in(says) {
            last = Some(address);
        }
    }
    last
}

/// The bits that words ask for together.
fn all_features(all: &[Says<'_>]) -> u64
    ensures { result ≡ fold bit_or 0 (filter_map spec.feature_in (says_views all.now)) }
{
    let mut features = 0;
    for says in all {
        if let Some(bits) = feature_in(says) {
            features |= bits;
        }
    }
    features
}

fn some_takes_first(all: &[Says<'_>]) -> bool
    ensures { result ≡ list_any spec.is_takes_first (says_views all.now) }
{
    for says in all {
        if takes_first(says) {
            return true;
        }
    }
    false
}

fn some_writes_code(all: &[Says<'_>]) -> bool
    ensures { result ≡ list_any spec.is_writes_code (says_views all.now) }
{
    for says in all {
        if writes_code(says) {
            return true;
        }
    }
    false
}

fn some_strips_local(all: &[Says<'_>]) -> bool
    ensures { result ≡ list_any spec.is_strips_local (says_views all.now) }
{
    for says in all {
        if strips_local(says) {
            return true;
        }
    }
    false
}

/// The output sections that are to begin at an address.
fn all_starts<'w>(alloc: Global, all: &[Says<'w>]) -> Result<Vec<Start<'w>>, AllocError>
    ensures { IfOk result (λ v. map start_view v.items
        ≡ filter_map spec.start_in (says_views all.now)) }
{
    let mut starts = Vec::new(alloc);
    for says in all {
        if let Says::Begins(start) = says {
            starts.push(*start)?;
        }
    }
    Ok(starts)
}

/// What words say beside the profile's part of a plan.
pub fn wider_of<'w>(alloc: Global, all: &[Says<'w>]) -> Result<Wider<'w>, AllocError>
    ensures { IfOk result (IsWider (says_views all.now)) }
{
    Ok(Wider {
        collects: last_collects(all).unwrap_or(false),
        tables: last_tables(all).unwrap_or(false),
        takes_first: some_takes_first(all),
        writes_code: some_writes_code(all),
        executes_stack: last_stack(all),
        features: all_features(all),
        segment: last_segment(all),
        starts: all_starts(alloc, all)?,
        strips_local: some_strips_local(all),
    })
}
