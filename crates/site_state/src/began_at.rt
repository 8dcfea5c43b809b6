//! When the open sessions began.

ghost use Rattle.std.specs.Prelude.{◌≡◌, ◌≤◌, ℕ, IfOk, IfSome, IsSome, None, OnErr, OnOk, filter};
ghost use Rattle.std.specs.FinMap as finite;
ghost use Rattle.std.specs.Ordering.{nat_cmp};
ghost use Rattle.std.specs.BTreeMap.{get, keys};
ghost use Rattle.site_state.specs.Private.{is_in, is_older};

use std::alloc::{AllocError, Global};
use std::collections::BTreeMap;
use std::marker::Model;

/// When each open session began, in seconds of the host's clock, by its number.
#[derive(Drop)]
pub(crate) struct BeganAt {
    by_number: BTreeMap<u64, u64>,
}

impl Model for BeganAt {
    ghost use Rattle.std.specs.FinMap as finite;
    ghost use Rattle.std.specs.Coded.{coded_ℕ};
    ghost use Rattle.site_state.specs.Timed.{Moments};

    ghost Value = { Moments };

    ghost coded = { finite.code coded_ℕ coded_ℕ };

    ghost view = { λ s. finite.from_entries s.by_number.entries };
}

/// Whether a session began before a moment.
fn is_past(by_number: &BTreeMap<u64, u64>, number: u64, before: u64) -> bool
    ensures { result ≡ is_older before (get nat_cmp by_number.now number) }
{
    match by_number.get(&number) {
        Some(moment) => *moment < before,
        None => false,
    }
}

/// The numbers of the sessions that began before a moment, in their order.
fn past(alloc: Global, by_number: &BTreeMap<u64, u64>, before: u64) -> Result<Vec<u64>, AllocError>
    ensures { IfOk result (λ numbers. numbers.items ≡ filter (λ n. is_older before (get nat_cmp by_number.now n)) (keys by_number.now)) }
{
    let mut numbers = Vec::new(alloc);
    for number in by_number.keys() {
        if is_past(by_number, *number, before) {
            numbers.push(*number)?;
        }
    }
    Ok(numbers)
}

/// The lowest number of a map.
fn lowest(by_number: &BTreeMap<u64, u64>) -> Option<u64>
    ensures there { IfSome result (λ n. IsSome (get nat_cmp by_number.now n)) }
    ensures least { IfSome result (λ n. (k : ℕ) → IsSome (get nat_cmp by_number.now k) → n ≤ k) }
    ensures none { result ≡ None → (k : ℕ) → get nat_cmp by_number.now k ≡ None }
{
    match by_number.first_key_value() {
        Some((number, _)) => Some(*number),
        None => None,
    }
}

impl BeganAt {
    /// No session. It takes no memory.
    pub(crate) fn new(alloc: Global) -> BeganAt
        ensures { result ≡ finite.empty }
    {
        BeganAt {
            by_number: BTreeMap::new(alloc),
        }
    }

    /// Sets the moment of a session.
    pub(crate) fn insert(&mut self, number: u64, moment: u64) -> Result<(), AllocError>
        ensures set { OnOk result (self.new ≡ finite.insert self.old number moment) }
        ensures unchanged { OnErr result (self.new ≡ self.old) }
    {
        self.by_number.insert(number, moment)?;
        Ok(())
    }

    /// Takes the moment of a session out. It takes no memory.
    pub(crate) fn remove(&mut self, number: u64)
        ensures { self.new ≡ finite.remove self.old number }
    {
        self.by_number.remove(&number);
    }

    /// How many sessions have a moment.
    pub(crate) fn count(&self) -> usize {
        self.by_number.len()
    }

    /// The lowest number.
    pub(crate) fn oldest(&self) -> Option<u64>
        ensures there { IfSome result (λ n. IsSome (finite.get self.now n)) }
        ensures least { IfSome result (λ n. (k : ℕ) → IsSome (finite.get self.now k) → n ≤ k) }
        ensures none { result ≡ None → (k : ℕ) → finite.get self.now k ≡ None }
    {
        lowest(&self.by_number)
    }

    /// The numbers of the sessions that began before a moment.
    pub(crate) fn older(&self, alloc: Global, before: u64) -> Result<Vec<u64>, AllocError>
        ensures { IfOk result (λ numbers. (n : ℕ) → is_in n numbers.items ≡ is_older before (finite.get self.now n)) }
    {
        past(alloc, &self.by_number, before)
    }
}
