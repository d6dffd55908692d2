//! What lists, stores, passes and curves print: counts.
ghost use Rattle.std.specs.Prelude.{Some, ⊤};
ghost use Rattle.std.specs.Cmp.Rules.{comparing};
ghost use Rattle.std.proofs.Common.{rules};

use crate::plain::room;
use crate::shown::Name;
use clru::{CLruCache, DefaultState};
use clru_curve::{DistancePass, SizedPass};
use clru_least::{Foresight, ForesightPass};
use clru_list::FixedSizeList;
use clru_through::{Source, Through};
use ration::{equal, shows};
use std::alloc::{AllocError, Global};

#[test]
fn a_list_prints_its_counts(rt: HostRuntime) {
    let mut list = FixedSizeList::new(rt.alloc(), 7);
    equal!(rt; is_list_shown(rt.alloc(), &mut list), Ok(true));
}

fn is_list_shown(alloc: Global, list: &mut FixedSizeList<Name>) -> Result<bool, AllocError> {
    let _ = list.push_back(Name(1));
    let whole = shows(alloc, list, "FixedSizeList { len: 1, capacity: 7 }")?;
    let walk = shows(alloc, &list.iter(), "FixedSizeListIter { len: 1 }")?;
    let mut cursor = list.iter_mut();
    let start = shows(alloc, &cursor, "FixedSizeListIterMut { len: 1 }")?;
    cursor.next();
    let end = shows(alloc, &cursor, "FixedSizeListIterMut { len: 0 }")?;
    Ok(whole && walk && start && end)
}

#[derive(Drop)]
struct Doubles;

impl Source<Name, u64, ()> for Doubles {
    ghost value = { λ _ _. Some 2 };

    ghost fetches = { λ _ _ _ _. ⊤ };

    fn fetch(&mut self, _name: &Name) -> Result<u64, ()> {
        Ok(2)
    }

    ghost same = { Prim.search (rules, comparing) };
}

#[test]
fn a_store_prints_its_counts(rt: HostRuntime) {
    let mut store = Through::new(CLruCache::new(rt.alloc(), room(3)), Doubles);
    equal!(rt; store.load(Name(1)).is_ok(), true);
    let text = "Through { len: 1, weight: 0, capacity: 3 }";
    equal!(rt; shows(rt.alloc(), &store, text), Ok(true));
}

static NAMES: &[Name] = &[Name(1), Name(2), Name(1)];

#[test]
fn a_foresight_prints_its_count(rt: HostRuntime) {
    equal!(rt; is_foresight_shown(rt.alloc()), Ok(true));
    let pass: ForesightPass<Name> = ForesightPass::new(rt.alloc());
    equal!(rt; shows(rt.alloc(), &pass, "ForesightPass { requests: 0 }"), Ok(true));
}

fn is_foresight_shown(alloc: Global) -> Result<bool, AllocError> {
    match Foresight::new(alloc, NAMES, DefaultState) {
        Ok(foresight) => shows(alloc, &foresight, "Foresight { requests: 3 }"),
        Err(_) => Ok(false),
    }
}

#[test]
fn a_pass_prints_its_counts(rt: HostRuntime) {
    equal!(rt; is_pass_shown(rt.alloc(), &mut DistancePass::new(rt.alloc())), true);
    equal!(rt; is_sized_pass_shown(rt.alloc(), &mut SizedPass::new(rt.alloc())), true);
}

fn is_pass_shown(alloc: Global, pass: &mut DistancePass<Name>) -> bool {
    for name in NAMES {
        let _ = pass.request(*name);
    }
    let text = "DistancePass { requests: 3, distinct: 2 }";
    shows(alloc, pass, text) == Ok(true) && is_curve_shown(alloc, pass)
}

fn is_curve_shown(alloc: Global, pass: &DistancePass<Name>) -> bool {
    match pass.curve(alloc) {
        Ok(curve) => shows(alloc, &curve, "MissCurve { distinct: 2 }") == Ok(true),
        Err(_) => false,
    }
}

fn is_sized_pass_shown(alloc: Global, pass: &mut SizedPass<Name>) -> bool {
    for name in NAMES {
        let _ = pass.request(*name, 4);
    }
    let text = "SizedPass { requests: 3, size: 15, distinct: 2 }";
    shows(alloc, pass, text) == Ok(true) && is_sized_curve_shown(alloc, pass)
}

fn is_sized_curve_shown(alloc: Global, pass: &SizedPass<Name>) -> bool {
    let text = "SizedCurve { requests: 3, size: 15, distinct_size: 10, greatest_weight: 4 }";
    match pass.curve(alloc) {
        Ok(curve) => shows(alloc, &curve, text) == Ok(true),
        Err(_) => false,
    }
}
