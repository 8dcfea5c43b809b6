//! The client: at most one act is under way.

ghost use Rattle.std.specs.Prelude.{◌≡◌, ◌⊎◌, None, IfOk, OnErr, option_map};
ghost use Rattle.client_lines.specs.Acts.{CarriesOut, Takes};
ghost use Rattle.client_lines.specs.Written.{asked_in};
ghost use Rattle.client_acts.specs.declared.act.Act.TheVariants as acts;

use crate::answer::{Answer, Told};
use crate::ceremony::Ceremony;
use crate::fault::NotTaken;
use client_acts::{Act, Begin, Further};
use pin_protocols::Ask;
use std::alloc::Global;

/// A client of one security key, of which at most one act is under way.
#[derive(Drop)]
pub struct Client {
    ceremony: Option<Ceremony>,
}

impl Client {
    /// A client of which no act is under way.
    pub fn new() -> Client
        ensures { result.ceremony ≡ None }
    {
        Client { ceremony: None }
    }

    /// What the host is asked to compute.
    pub(crate) fn asked(&self) -> Option<&Ask>
        ensures { option_map (λ a. a.now) result ≡ asked_in self.now.ceremony }
    {
        match &self.ceremony {
            Some(ceremony) => ceremony.asked(),
            None => None,
        }
    }

    /// Begins an act; what was under way is dropped.
    fn begin(&mut self, alloc: Global, begin: Begin) -> Told
        ensures { CarriesOut self.old (acts.Begin begin) result self.new }
    {
        match Ceremony::begin(alloc, begin) {
            Ok((ceremony, told)) => {
                self.ceremony = Some(ceremony);
                told
            }
            Err(refused) => {
                self.ceremony = None;
                Told::quiet(alloc, Answer::Refused(refused))
            }
        }
    }

    /// Takes the act that is under way further.
    fn take(&mut self, alloc: Global, further: Further) -> Result<Told, NotTaken>
        ensures told { IfOk result (λ told. Takes self.old further told self.new) }
        ensures unchanged { OnErr result (self.new ≡ self.old) }
    {
        match &mut self.ceremony {
            Some(ceremony) => ceremony.take(alloc, further),
            None => Err(NotTaken::NothingBegun),
        }
    }

    /// Ends the act that is under way, where it is over.
    fn end(&mut self, is_over: bool)
        ensures { (self.new.ceremony ≡ self.old.ceremony) ⊎ (self.new.ceremony ≡ None) }
    {
        if is_over {
            self.ceremony = None;
        }
    }

    /// The same, and ends it where it is over.
    fn further(&mut self, alloc: Global, further: Further) -> Result<Told, NotTaken>
        ensures told { IfOk result (λ told. CarriesOut self.old (acts.Further further) told self.new) }
        ensures unchanged { OnErr result (self.new ≡ self.old) }
    {
        let told = self.take(alloc, further)?;
        self.end(told.answer.is_over());
        Ok(told)
    }

    /// Carries out what a line asks for.
    pub(crate) fn carry_out(&mut self, alloc: Global, act: Act) -> Result<Told, NotTaken>
        ensures told { IfOk result (λ told. CarriesOut self.old act told self.new) }
        ensures unchanged { OnErr result (self.new ≡ self.old) }
    {
        match act {
            Act::Begin(begin) => Ok(self.begin(alloc, begin)),
            Act::Further(further) => self.further(alloc, further),
        }
    }
}
