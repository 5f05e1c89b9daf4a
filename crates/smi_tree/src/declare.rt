//! What each declaration adds to the tables: unknown names are found first, then a second declaration, then a class
//! of the other kind, and a limit last.

ghost use Rattle.std.specs.Prelude.{◌≡◌, ◌==◌, ◌+◌, ◌<◌, length, count_by, is_some};
ghost use Rattle.smi_tree.specs.Hierarchy.{is_child_of, move_in, parent_in, ancestors, depth_in};
ghost use Rattle.smi_tree.specs.Additions.{known};

use crate::declaration::{ClassKind, Declaration, Keyword, Quantifier, one_name, two_names};
use crate::fault::{Fault, LineRefusal};
use crate::name::Name;
use crate::names::Names;
use crate::number::Address;
use crate::row::{Class, Device, Domain, Move, Rule, entry};
use crate::tables::Tables;
use smi_base::{
    MOST_ACTIONS, MOST_CHILDREN, MOST_CLASSES, MOST_DEVICES, MOST_DEVICES_OF_A_DOMAIN,
    MOST_DOMAINS, MOST_LEVELS, MOST_OPERATORS, MOST_OPERATORS_OF_A_STATION, MOST_RULES_OF_A_CLASS,
    MOST_STATES, MOST_STATIONS,
};
use std::alloc::Global;

/// What is before the first row.
const NO_MOVE: Move = Move {
    class: 0,
    from: 0,
    action: 0,
    to: 0,
};

/// Returns the number of a name that has to be above.
#[inline(always)]
fn known(names: &Names, name: &Name) -> Result<u16, Fault>
    ensures { result ≡ known names.now name.now }
{
    names.number(name).ok_or(Fault::UnknownName)
}

fn count_of(homes: &[u16], home: u16) -> usize
    ensures { result ≡ count_by (λ other. other == home) homes.now }
{
    homes.iter().filter(|other| **other == home).count()
}

fn count_of_children(domains: &[Domain], parent: u16) -> usize
    ensures { result ≡ count_by (is_child_of parent) domains.now }
{
    domains
        .iter()
        .filter(|row| is_child_of(parent, row))
        .count()
}

fn is_child_of(parent: u16, row: &Domain) -> bool
    ensures { result ≡ is_child_of parent row.now }
{
    match row.parent {
        Some(above) => above == parent,
        None => false,
    }
}

/// Returns the domain above a domain.
pub(crate) fn parent_in(domains: &[Domain], domain: u16) -> Option<u16>
    ensures { result ≡ parent_in domains.now domain }
{
    match entry(domains, domain) {
        Some(row) => row.parent,
        None => None,
    }
}

/// Returns how deep a domain lies, a root at 1.
fn depth_in(domains: &[Domain], domain: u16) -> usize
    ensures { result ≡ depth_in domains.now domain }
{
    let mut at = domain;
    for above in 0..MOST_LEVELS {
        match parent_in(domains, at) {
            Some(parent) => at = parent,
            None => return above + 1,
        }
    }
    MOST_LEVELS + 1
}

impl Tables {
    ghost use Rattle.std.specs.Prelude.{ℕ, List, ◌∷◌, ◌≡◌, ◌<◌, ◌≤◌, length, IfOk, IfSome, true};
    ghost use Rattle.smi_tree.specs.Fault.{Becomes, Gives};
    ghost use Rattle.smi_tree.specs.Text.{words};
    ghost use Rattle.smi_tree.specs.Name.{is_name};
    ghost use Rattle.smi_tree.specs.ClassTable.{ClassTable};
    ghost use Rattle.smi_tree.specs.Hierarchy.{IsEntry};
    ghost use Rattle.smi_tree.specs.declared.declaration.Keyword.TheVariants as keywords;
    ghost use Rattle.smi_tree.specs.Additions.{
      known_class,
      known_parent,
      is_taken,
      has_room,
      with_state,
      with_action,
      with_station,
      with_operator,
      with_class,
      with_move,
      with_accepted,
      with_rule,
      with_domain,
      with_device,
      with_declaration,
      with_words_of,
    };

    /// Adds what the words after a keyword declare.
    pub(crate) fn read_words(
        &mut self,
        alloc: Global,
        keyword: Keyword,
        text: &[u8],
    ) -> Result<(), LineRefusal>
        ensures { Becomes self.new result (with_words_of self.old keyword (words text.now)) }
    {
        match &Declaration::read(keyword, text) {
            Ok(declaration) => self.declare(alloc, declaration),
            Err(fault) => Err(LineRefusal::Faulty(*fault)),
        }
    }

    /// Adds the move that the words after `move` declare.
    pub(crate) fn read_move(&mut self, alloc: Global, text: &[u8]) -> Result<(), LineRefusal>
        ensures { Becomes self.new result (with_words_of self.old keywords.Move (words text.now)) }
    {
        // The rows of a class are mostly together, by state and then by action.
        let last = self.moves.last().unwrap_or(NO_MOVE);
        let next = last.action.wrapping_add(1);
        let Some((kind, rest)) = self.after_class_and_state(last, text) else {
            return self.read_words(alloc, Keyword::Move, text);
        };
        if let Some(rest) = self.action_names.after_name(next, rest) {
            let to = one_name(rest)?;
            return self.add_move_from(last.class, kind, last.from, next, &to);
        }
        let (action, to) = two_names(rest)?;
        let action = known(&self.action_names, &action)?;
        self.add_move_from(last.class, kind, last.from, action, &to)
    }

    /// Returns the kind of a row's class, and what follows that class and the row's state, if a text begins with
    /// these.
    #[inline(always)]
    fn after_class_and_state<'a>(&self, row: Move, text: &'a [u8]) -> Option<(ClassKind, &'a [u8])>
        ensures { IfSome result (λ found. (class from : List ℕ) × (table : ClassTable)
            × (is_name class ≡ true) × (is_name from ≡ true)
            × (known_class self.now class ≡ Ok (row.class, table)) × (table.kind ≡ found.0)
            × (known self.now.state_names from ≡ Ok row.from)
            × (words text.now ≡ class ∷ (from ∷ words found.1.now))) }
    {
        let table = entry(&self.classes, row.class)?;
        let rest = self.class_names.after_name(row.class, text)?;
        let rest = self.state_names.after_name(row.from, rest)?;
        Some((table.kind, rest))
    }

    fn declare(&mut self, alloc: Global, declaration: &Declaration<'_>) -> Result<(), LineRefusal>
        ensures { Becomes self.new result (with_declaration self.old declaration.now) }
    {
        match declaration {
            Declaration::Tree(number) => {
                self.number = *number;
                Ok(())
            }
            Declaration::State(name) => self.add_state(name),
            Declaration::Action(name) => self.add_action(name),
            Declaration::Station { name, address } => self.add_station(name, *address),
            Declaration::Operator { name, station } => self.add_operator(name, station),
            Declaration::Class { kind, name, first } => self.add_class(alloc, *kind, name, first),
            Declaration::Move {
                class,
                from,
                action,
                to,
            } => self.add_move(class, from, action, to),
            Declaration::Accept { class, action } => self.accept(class, action),
            Declaration::Rule {
                quantifier,
                class,
                state,
                target,
            } => self.add_rule(*quantifier, class, state, target),
            Declaration::Domain {
                name,
                station,
                class,
                parent,
            } => self.add_domain(name, station, class, parent),
            Declaration::Device {
                name,
                domain,
                class,
            } => self.add_device(name, domain, class),
        }
    }

    /// Returns true if a domain, a device or an operator has this name.
    fn is_taken(&self, name: &Name) -> bool
        ensures { result ≡ is_taken self.now name.now }
    {
        self.operator_names.number(name).is_some()
            || self.domain_names.number(name).is_some()
            || self.device_names.number(name).is_some()
    }

    #[tactic(auto, unfolding(crate::specs::Additions::with_state))]
    fn add_state(&mut self, name: &Name) -> Result<(), LineRefusal>
        ensures { Becomes self.new result (with_state self.old name.now) }
    {
        self.state_names.add(name, usize::from(MOST_STATES))
    }

    #[tactic(auto, unfolding(crate::specs::Additions::with_action))]
    fn add_action(&mut self, name: &Name) -> Result<(), LineRefusal>
        ensures { Becomes self.new result (with_action self.old name.now) }
    {
        self.action_names.add(name, usize::from(MOST_ACTIONS))
    }

    #[tactic(auto, unfolding(crate::specs::Additions::with_station))]
    fn add_station(&mut self, name: &Name, address: Address) -> Result<(), LineRefusal>
        ensures { Becomes self.new result (with_station self.old name.now address) }
    {
        self.station_names.add(name, usize::from(MOST_STATIONS))?;
        self.addresses.push(address)?;
        Ok(())
    }

    #[tactic(auto, unfolding(crate::specs::Additions::with_operator))]
    fn add_operator(&mut self, name: &Name, station: &Name) -> Result<(), LineRefusal>
        ensures { Becomes self.new result (with_operator self.old name.now station.now) }
    {
        let home = known(&self.station_names, station)?;
        if self.is_taken(name) {
            return Err(LineRefusal::Faulty(Fault::Twice));
        }
        if self.operator_names.len() >= usize::from(MOST_OPERATORS)
            || count_of(&self.homes, home) >= MOST_OPERATORS_OF_A_STATION
        {
            return Err(LineRefusal::Faulty(Fault::OverLimit));
        }
        self.operator_names.push(name)?;
        self.homes.push(home)?;
        Ok(())
    }

    #[tactic(auto, unfolding(crate::specs::Additions::with_class))]
    fn add_class(
        &mut self,
        alloc: Global,
        kind: ClassKind,
        name: &Name,
        first: &Name,
    ) -> Result<(), LineRefusal>
        ensures { Becomes self.new result (with_class self.old kind name.now first.now) }
    {
        let first = known(&self.state_names, first)?;
        self.class_names.add(name, usize::from(MOST_CLASSES))?;
        self.classes.push(Class::new(alloc, kind, first))?;
        Ok(())
    }

    /// Returns the number and the table of a class that has to be above.
    #[tactic(auto, unfolding(crate::specs::Additions::known_class))]
    fn known_class(&self, name: &Name) -> Result<(u16, &Class), Fault>
        ensures found { Gives (λ found. (found.0, found.1.now)) result (known_class self.now name.now) }
        ensures row { IfOk result (λ found. IsEntry self.now.classes found.0 found.1.now) }
    {
        let class = known(&self.class_names, name)?;
        let table = entry(&self.classes, class).ok_or(Fault::UnknownName)?;
        Ok((class, table))
    }

    #[tactic(auto, unfolding(crate::specs::Additions::with_move))]
    fn add_move(
        &mut self,
        class: &Name,
        from: &Name,
        action: &Name,
        to: &Name,
    ) -> Result<(), LineRefusal>
        ensures { Becomes self.new result (with_move self.old class.now from.now action.now to.now) }
    {
        let (class, table) = self.known_class(class)?;
        let kind = table.kind;
        let from = known(&self.state_names, from)?;
        let action = known(&self.action_names, action)?;
        self.add_move_from(class, kind, from, action, to)
    }

    /// Adds a move by its numbers, the class being of this kind.
    fn add_move_from(
        &mut self,
        class: u16,
        kind: ClassKind,
        from: u16,
        action: u16,
        to: &Name,
    ) -> Result<(), LineRefusal>
        ensures { (class_name from_name action_name : List ℕ) → (table : ClassTable)
            → known_class self.old class_name ≡ Ok (class, table) → table.kind ≡ kind
            → known self.old.state_names from_name ≡ Ok from
            → known self.old.action_names action_name ≡ Ok action
            → Becomes self.new result (with_move self.old class_name from_name action_name to.now) }
    {
        let to = known(&self.state_names, to)?;
        if self.moves.find(class, from, action).is_some() {
            return Err(LineRefusal::Faulty(Fault::Twice));
        }
        if kind != ClassKind::Device {
            return Err(LineRefusal::Faulty(Fault::OtherKind));
        }
        self.moves.push(Move {
            class,
            from,
            action,
            to,
        })?;
        Ok(())
    }

    #[tactic(auto, unfolding(crate::specs::Additions::with_accepted))]
    fn accept(&mut self, class: &Name, action: &Name) -> Result<(), LineRefusal>
        ensures { Becomes self.new result (with_accepted self.old class.now action.now) }
    {
        let (class, table) = self.known_class(class)?;
        let action = known(&self.action_names, action)?;
        if table.accepts(action) {
            return Err(LineRefusal::Faulty(Fault::Twice));
        }
        if !table.is_kind(ClassKind::Unit) {
            return Err(LineRefusal::Faulty(Fault::OtherKind));
        }
        let table = &mut self.classes[usize::from(class) - 1];
        table.accept(action)?;
        Ok(())
    }

    #[tactic(auto, unfolding(crate::specs::Additions::with_rule))]
    fn add_rule(
        &mut self,
        quantifier: Quantifier,
        class: &Name,
        state: &Name,
        target: &Name,
    ) -> Result<(), LineRefusal>
        ensures { Becomes self.new result (with_rule self.old quantifier class.now state.now target.now) }
    {
        let (class, table) = self.known_class(class)?;
        let state = known(&self.state_names, state)?;
        let target = known(&self.state_names, target)?;
        if !table.is_kind(ClassKind::Unit) {
            return Err(LineRefusal::Faulty(Fault::OtherKind));
        }
        if table.rule_count() >= MOST_RULES_OF_A_CLASS {
            return Err(LineRefusal::Faulty(Fault::OverLimit));
        }
        let table = &mut self.classes[usize::from(class) - 1];
        table.add_rule(Rule {
            quantifier,
            state,
            target,
        })?;
        Ok(())
    }

    /// Returns the number of a parent that has to be above, if there is one.
    #[tactic(auto, unfolding(crate::specs::Additions::known_parent))]
    fn known_parent(&self, parent: &Option<Name>) -> Result<Option<u16>, Fault>
        ensures { result ≡ known_parent self.now parent.now }
    {
        match parent {
            Some(name) => Ok(Some(known(&self.domain_names, name)?)),
            None => Ok(None),
        }
    }

    /// Returns true if a parent has room for one more child.
    #[tactic(auto, unfolding(crate::specs::Additions::has_room))]
    fn has_room(&self, parent: Option<u16>) -> bool
        ensures { result ≡ has_room self.now parent }
    {
        match parent {
            Some(parent) => {
                count_of_children(&self.domains, parent) < MOST_CHILDREN
                    && depth_in(&self.domains, parent) < MOST_LEVELS
            }
            None => true,
        }
    }

    #[tactic(auto, unfolding(crate::specs::Additions::with_domain))]
    fn add_domain(
        &mut self,
        name: &Name,
        station: &Name,
        class: &Name,
        parent: &Option<Name>,
    ) -> Result<(), LineRefusal>
        ensures { Becomes self.new result (with_domain self.old name.now station.now class.now parent.now) }
    {
        let station = known(&self.station_names, station)?;
        let (class, table) = self.known_class(class)?;
        let kind = table.kind;
        let parent = self.known_parent(parent)?;
        if self.is_taken(name) {
            return Err(LineRefusal::Faulty(Fault::Twice));
        }
        if kind != ClassKind::Unit {
            return Err(LineRefusal::Faulty(Fault::OtherKind));
        }
        if self.domain_names.len() >= usize::from(MOST_DOMAINS) || !self.has_room(parent) {
            return Err(LineRefusal::Faulty(Fault::OverLimit));
        }
        self.domain_names.push(name)?;
        self.domains.push(Domain {
            station,
            class,
            parent,
        })?;
        Ok(())
    }

    #[tactic(auto, unfolding(crate::specs::Additions::with_device))]
    fn add_device(&mut self, name: &Name, domain: &Name, class: &Name) -> Result<(), LineRefusal>
        ensures { Becomes self.new result (with_device self.old name.now domain.now class.now) }
    {
        let domain = known(&self.domain_names, domain)?;
        let (class, table) = self.known_class(class)?;
        let kind = table.kind;
        if self.is_taken(name) {
            return Err(LineRefusal::Faulty(Fault::Twice));
        }
        if kind != ClassKind::Device {
            return Err(LineRefusal::Faulty(Fault::OtherKind));
        }
        if self.device_names.len() >= usize::from(MOST_DEVICES)
            || self.devices.count_in(domain) >= MOST_DEVICES_OF_A_DOMAIN
        {
            return Err(LineRefusal::Faulty(Fault::OverLimit));
        }
        self.device_names.push(name)?;
        self.devices.push(Device { domain, class })?;
        Ok(())
    }
}
