//! The picture, and what is noted in it.

ghost use Rattle.std.specs.Prelude.{◌≡◌, Some};
ghost use Rattle.smi_view.specs.Newest.{shown_after, told_after};

use crate::further::is_further;
use crate::sight::{Hearing, Sight};
use crate::view::is_newer;
use smi_grant::{Record, Shown};
use std::alloc::{AllocError, Global};
use std::marker::Model;

/// What was seen of all objects and heard of all domains of a tree.
#[derive(Drop)]
pub struct Picture {
    objects: Vec<Option<Sight>>,
    domains: Vec<Option<Hearing>>,
}

impl Model for Picture {
    ghost use Rattle.smi_view.specs.Pictured.{Pictured};

    ghost Value = { Pictured };

    ghost view = { λ p. record { objects = p.objects.items; domains = p.domains.items } };
}

/// Returns what is had of an object, once a state of it is shown.
fn shown_after(had: Option<Sight>, shown: Shown, now: u64) -> Sight
    ensures { Some result ≡ shown_after had shown now }
{
    match had {
        Some(seen) if !is_newer(shown.version, seen.shown.version) => seen,
        _ => Sight { shown, at: now },
    }
}

/// Returns what is had of a domain, once a record of it is told.
fn told_after(had: &Option<Hearing>, told: &Record, now: u64) -> Hearing
    ensures { Some result ≡ told_after had.now told.now now }
{
    match had {
        Some(had) if !is_further(told, &had.record) => Hearing {
            record: had.record,
            since: had.since,
            heard: now,
        },
        _ => Hearing {
            record: *told,
            since: now,
            heard: now,
        },
    }
}

impl Picture {
    ghost use Rattle.std.specs.Prelude.{ℕ, ◌≡◌, ◌≢◌, ◌≤◌, ◌↔◌, [], ◌∷◌, None, length, IfOk, IsTrue};
    ghost use Rattle.smi_view.specs.Newest.{shown_after, told_after};
    ghost use Rattle.smi_view.specs.Noted.{Showed, TakesIn, Told};
    ghost use Rattle.smi_view.specs.Pictured.{domain_of, object_of};

    /// Returns a picture of this many objects and domains, of which nothing was seen or heard.
    ///
    /// It fails only if memory ran out, which tests alone see.
    pub fn new(alloc: Global, objects: u16, domains: u16) -> Result<Picture, AllocError>
        ensures objects { IfOk result (λ picture. length picture.objects ≡ objects) }
        ensures domains { IfOk result (λ picture. length picture.domains ≡ domains) }
        ensures unseen { IfOk result (λ picture. (object : ℕ) → object_of picture object ≡ None) }
        ensures unheard { IfOk result (λ picture. (domain : ℕ) → domain_of picture domain ≡ None) }
    {
        let mut seen = Vec::new(alloc);
        for _ in 0..objects {
            seen.push(None)?;
        }
        let mut heard = Vec::new(alloc);
        for _ in 0..domains {
            heard.push(None)?;
        }
        Ok(Picture {
            objects: seen,
            domains: heard,
        })
    }

    /// Returns the newest state of an object, by its number from 1.
    pub fn object(&self, object: usize) -> Option<Sight>
        ensures { result ≡ object_of self.now object }
    {
        let place = object.checked_sub(1)?;
        match self.objects.get(place) {
            Some(Some(sight)) => Some(*sight),
            _ => None,
        }
    }

    /// Returns the furthest record of a domain, by its number from 1.
    pub fn domain(&self, domain: u16) -> Option<Hearing>
        ensures { result ≡ domain_of self.now domain }
    {
        let place = usize::from(domain).checked_sub(1)?;
        match self.domains.get(place) {
            Some(Some(hearing)) => Some(*hearing),
            _ => None,
        }
    }

    fn has_object(&self, object: u16) -> bool
        ensures { IsTrue result ↔ ((1 ≤ object) × (object ≤ length self.now.objects)) }
    {
        1 <= object && usize::from(object) <= self.objects.len()
    }

    fn has_domain(&self, domain: u16) -> bool
        ensures { IsTrue result ↔ ((1 ≤ domain) × (domain ≤ length self.now.domains)) }
    {
        1 <= domain && usize::from(domain) <= self.domains.len()
    }

    /// Takes in a state of an object that is there.
    fn put_shown(&mut self, shown: Shown, now: u64)
        requires least { 1 ≤ shown.object }
        requires most { shown.object ≤ length self.old.objects }
        ensures noted { object_of self.new shown.object ≡ shown_after (object_of self.old shown.object) shown now }
        ensures others { (object : ℕ) → object ≢ shown.object → object_of self.new object ≡ object_of self.old object }
        ensures domains { self.new.domains ≡ self.old.domains }
        ensures count { length self.new.objects ≡ length self.old.objects }
    {
        let had = self.object(usize::from(shown.object));
        self.objects[usize::from(shown.object) - 1] = Some(shown_after(had, shown, now));
    }

    /// Takes in a record of a domain that is there.
    fn put_told(&mut self, domain: u16, told: &Record, now: u64)
        requires least { 1 ≤ domain }
        requires most { domain ≤ length self.old.domains }
        ensures noted { domain_of self.new domain ≡ told_after (domain_of self.old domain) told.now now }
        ensures others { (other : ℕ) → other ≢ domain → domain_of self.new other ≡ domain_of self.old other }
        ensures objects { self.new.objects ≡ self.old.objects }
        ensures count { length self.new.domains ≡ length self.old.domains }
    {
        let had = self.domain(domain);
        self.domains[usize::from(domain) - 1] = Some(told_after(&had, told, now));
    }

    /// Notes that a state was shown at this time. It is kept if it is the first of its object, or newer than what was
    /// had; one of an object that is not there is nowhere.
    #[tactic(auto, using(crate::proofs::Notes::takes_shown, crate::proofs::Notes::takes_no_shown))]
    pub fn show(&mut self, shown: Shown, now: u64)
        ensures { TakesIn (Showed shown now ∷ []) self.old self.new }
    {
        if self.has_object(shown.object) {
            self.put_shown(shown, now);
        }
    }

    /// Takes in a record of a domain that was told at this time: the domain is heard then. The record is kept if it
    /// is the first, or has come further than what was had; one of a domain that is not there is nowhere.
    #[tactic(auto, using(crate::proofs::Notes::takes_told, crate::proofs::Notes::takes_no_told))]
    pub fn tell(&mut self, domain: u16, told: &Record, now: u64)
        ensures { TakesIn (Told domain told.now now ∷ []) self.old self.new }
    {
        if self.has_domain(domain) {
            self.put_told(domain, told, now);
        }
    }
}
