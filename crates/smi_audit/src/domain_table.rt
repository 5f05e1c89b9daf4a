//! What is known of the grants of all domains.

use crate::grant_state::{GrantState, forwards, is_commanded, may_hold, works_on};
use crate::orders::Orders;
use crate::stage::GrantStage;
use smi_base::MOST_LEVELS;
use smi_grant::{Command, Holder};
use smi_rows::Mode;
use smi_station_grants::entry_of;
use smi_tree::Tree;
use std::alloc::{AllocError, Global};
use std::marker::Model;

/// What is known of the domains of a tree.
#[derive(Drop)]
pub struct DomainTable<'a> {
    tree: &'a Tree,
    grants: Vec<GrantState>,
    orders: Vec<Orders>,
}

impl<'a> Model for DomainTable<'a> {
    ghost use Rattle.smi_audit.specs.Kept as kept;

    ghost Value = { kept.DomainTable };

    ghost view = { λ l. record { tree = l.tree.now; grants = l.grants.items; orders = l.orders.items } };

    ghost invariant = { λ l. kept.IsDomainTable (record {
      tree = l.tree.now;
      grants = l.grants.items;
      orders = l.orders.items;
    }) };
}

ghost use Rattle.std.specs.Prelude.{◌≡◌, [], replicate, IfOk};
ghost use Rattle.smi_tree.specs.Lookups.{domain_count};
ghost use Rattle.smi_audit.specs.Kept.{fresh_state};

/// Returns what was ordered at this many domains before anything happens.
fn no_orders(alloc: Global, count: usize) -> Result<Vec<Orders>, AllocError>
    ensures { IfOk result (λ orders. orders.items ≡ replicate count []) }
{
    let mut orders = Vec::new(alloc);
    for _number in 0..count {
        orders.push(Orders::new(alloc))?;
    }
    Ok(orders)
}

impl<'a> DomainTable<'a> {
    /// Makes a table in which no domain was ever granted.
    pub fn new(alloc: Global, tree: &'a Tree) -> Result<DomainTable<'a>, AllocError>
        ensures { IfOk result (λ domains. domains ≡ record {
          tree = tree.now;
          grants = replicate (domain_count tree.now) fresh_state;
          orders = replicate (domain_count tree.now) [];
        }) }
    {
        let count = usize::from(tree.domain_count());
        let grants = vec![in alloc; GrantState::begun(0, Holder::Free); count]?;
        let orders = no_orders(alloc, count)?;
        Ok(DomainTable {
            tree,
            grants,
            orders,
        })
    }

    ghost use Rattle.std.specs.Prelude.{◌≡◌, ◌≤◌, ◌==◌, ◌+◌, ◌&&◌, [], ◌∷◌, ◌++◌, length, IfOk, OnOk, OnErr, is_ok};
    ghost use Rattle.std.specs.Prelude.{if◌then◌else◌, true};
    ghost use Rattle.smi_grant.specs.declared.Holder.TheVariants.{Free};
    ghost use Rattle.smi_base.specs.declared.trees.TheConstants.{MOST_LEVELS};
    ghost use Rattle.smi_protocol.specs.Grants.{put};
    ghost use Rattle.smi_station_grants.specs.Entries.{entry_or};
    ghost use Rattle.smi_tree.specs.Roles.{has_domain};
    ghost use Rattle.smi_audit.specs.Tables as spec;
    ghost use Rattle.smi_audit.specs.Kept.{Writes, account_of, accounts_of, fresh_state};

    /// Returns true if the tree has the domain.
    pub fn has(&self, domain: u16) -> bool
        ensures { result ≡ has_domain self.now.tree domain }
    {
        smi_tree::has_domain(self.tree, domain)
    }

    /// Returns what is known of a domain's last grant, but for what was ordered under it.
    pub fn state(&self, domain: u16) -> GrantState
        ensures { result ≡ entry_or self.now.grants domain fresh_state }
    {
        entry_of(&self.grants, domain, GrantState::begun(0, Holder::Free))
    }

    /// Returns true if this command, and no other, was ordered at a domain under a number.
    fn is_ordered(&self, domain: u16, number: u32, command: Command) -> bool
        ensures { result ≡ spec.is_only (spec.order_at (accounts_of self.now domain).orders number) command }
    {
        if domain == 0 {
            return false;
        }
        match self.orders.get(usize::from(domain) - 1) {
            Some(orders) => orders.is_only(number, command),
            None => false,
        }
    }

    /// Replaces the state of a domain.
    fn put_state(&mut self, domain: u16, state: GrantState)
        requires { has_domain self.old.tree domain ≡ true }
        ensures accounts { accounts_of self.new
            ≡ put (accounts_of self.old) domain (account_of state (accounts_of self.old domain).orders) }
        ensures tree { self.new.tree ≡ self.old.tree }
    {
        self.grants[usize::from(domain) - 1] = state;
    }

    /// Forgets what was ordered at a domain.
    fn clear_orders(&mut self, domain: u16)
        requires { has_domain self.old.tree domain ≡ true }
        ensures accounts { accounts_of self.new
            ≡ put (accounts_of self.old) domain (record (accounts_of self.old domain) { orders = [] }) }
        ensures tree { self.new.tree ≡ self.old.tree }
    {
        self.orders[usize::from(domain) - 1].clear();
    }

    /// Writes the state of a domain that changes hands: nothing was ordered yet.
    fn hand_over(&mut self, domain: u16, state: GrantState)
        requires { has_domain self.old.tree domain ≡ true }
        ensures accounts { accounts_of self.new ≡ put (accounts_of self.old) domain (account_of state []) }
        ensures tree { self.new.tree ≡ self.old.tree }
    {
        self.clear_orders(domain);
        self.put_state(domain, state);
    }

    /// Adds a command that was ordered at a domain. If memory is refused, nothing changes.
    fn push_order(&mut self, domain: u16, command: Command) -> Result<(), AllocError>
        requires { has_domain self.old.tree domain ≡ true }
        ensures accounts { OnOk result (accounts_of self.new
            ≡ put (accounts_of self.old) domain (spec.ordered (accounts_of self.old domain) command)) }
        ensures tree { OnOk result (self.new.tree ≡ self.old.tree) }
        ensures unchanged { OnErr result (self.new ≡ self.old) }
    {
        self.orders[usize::from(domain) - 1].push(command)
    }

    /// Returns how many commands were ordered at a domain.
    fn order_count(&self, domain: u16) -> usize
        requires { has_domain self.now.tree domain ≡ true }
        ensures { result ≡ length (accounts_of self.now domain).orders }
    {
        self.orders[usize::from(domain) - 1].count()
    }

    /// Returns true if a domain may be granted next, at an epoch and to a holder.
    pub fn fits_grant(&self, domain: u16, epoch: u64, holder: Holder) -> bool
        ensures { result ≡ (has_domain self.now.tree domain
            && spec.takes_grant self.now.tree domain (accounts_of self.now domain) epoch holder) }
    {
        self.has(domain)
            && self
                .state(domain)
                .takes_grant(self.tree, domain, epoch, holder)
    }

    /// Returns true if the grant of a domain may end next, at an epoch.
    pub fn fits_end(&self, domain: u16, epoch: u64) -> bool
        ensures { result ≡ (has_domain self.now.tree domain && spec.takes_end (accounts_of self.now domain) epoch) }
    {
        self.has(domain) && self.state(domain).takes_end(epoch)
    }

    /// Returns true if a holder may learn of its grant next.
    pub fn fits_learned(&self, holder: Holder, domain: u16, epoch: u64) -> bool
        ensures { result ≡ (has_domain self.now.tree domain
            && spec.takes_learned (accounts_of self.now domain) holder epoch) }
    {
        self.has(domain) && self.state(domain).takes_learned(holder, epoch)
    }

    /// Returns true if a holder may let go of its grant next.
    pub fn fits_let_go(&self, holder: Holder, domain: u16, epoch: u64) -> bool
        ensures { result ≡ (has_domain self.now.tree domain
            && spec.takes_let_go (accounts_of self.now domain) holder epoch) }
    {
        self.has(domain) && self.state(domain).takes_let_go(holder, epoch)
    }

    /// Returns true if a command may end next: it is at work.
    pub fn fits_settled(&self, domain: u16, epoch: u64, number: u32) -> bool
        ensures { result ≡ (has_domain self.now.tree domain
            && spec.takes_settled (accounts_of self.now domain) epoch number) }
    {
        self.has(domain) && self.state(domain).takes_settled(epoch, number)
    }

    /// Returns true if an operator may order next, under a grant and a number.
    pub fn fits_order(&self, operator: u16, domain: u16, epoch: u64, number: u32) -> bool
        ensures { result ≡ (has_domain self.now.tree domain
            && spec.takes_order (accounts_of self.now domain) operator epoch number) }
    {
        self.has(domain)
            && self
                .state(domain)
                .takes_order(self.order_count(domain), operator, epoch, number)
    }

    /// Returns true if a command rests on current grants, this many levels up at most.
    #[cycle(rests)]
    fn rests(&self, levels: usize, domain: u16, number: u32, command: Command) -> bool
        ensures { result ≡ spec.rests levels self.now.tree (accounts_of self.now) domain number command }
    {
        if levels == 0 {
            return false;
        }
        let state = self.state(domain);
        state.stage.is_held() && self.is_behind(levels - 1, domain, number, command, state)
    }

    /// Returns true if the holder of a domain has ordered its command, or works on it.
    #[cycle(rests)]
    fn is_behind(
        &self,
        levels: usize,
        domain: u16,
        number: u32,
        command: Command,
        state: GrantState,
    ) -> bool
        requires { state ≡ entry_or self.now.grants domain fresh_state }
        ensures { result ≡ spec.is_behind self.now.tree (accounts_of self.now) domain number command
            (λ p. spec.rests levels self.now.tree (accounts_of self.now) p (accounts_of self.now p).ran command)
            state.holder }
    {
        match state.holder {
            Holder::Free => false,
            Holder::Operator(_) => self.is_ordered(domain, number, command),
            Holder::Domain(above) => {
                let over = self.state(above);
                may_hold(self.tree, domain, state.holder)
                    && is_commanded(state.mode)
                    && works_on(over.work, command)
                    && forwards(self.tree, above, command, domain)
                    && self.rests(levels, above, over.ran, command)
            }
        }
    }

    /// Returns true if a command may run next.
    pub fn fits_run(&self, domain: u16, epoch: u64, number: u32, command: Command) -> bool
        ensures { result ≡ (has_domain self.now.tree domain
            && spec.takes_run self.now.tree (accounts_of self.now) domain epoch number command) }
    {
        self.has(domain)
            && self.state(domain).is_next_run(epoch, number)
            && self.rests(MOST_LEVELS, domain, number, command)
    }

    /// Takes a grant of a domain, if it fits.
    pub fn granted(&mut self, domain: u16, epoch: u64, holder: Holder) -> bool
        ensures { Writes result (has_domain self.old.tree domain
            && spec.takes_grant self.old.tree domain (accounts_of self.old domain) epoch holder)
            self.old self.new domain (spec.begun epoch holder) }
    {
        if self.fits_grant(domain, epoch, holder) {
            self.hand_over(domain, GrantState::begun(epoch, holder));
            true
        } else {
            false
        }
    }

    /// Takes the end of a grant, if it fits.
    pub fn freed(&mut self, domain: u16, epoch: u64) -> bool
        ensures { Writes result (has_domain self.old.tree domain && spec.takes_end (accounts_of self.old domain) epoch)
            self.old self.new domain (spec.begun epoch Free) }
    {
        if self.fits_end(domain, epoch) {
            self.hand_over(domain, GrantState::begun(epoch, Holder::Free));
            true
        } else {
            false
        }
    }

    /// Takes that a holder learns of its grant, if it fits.
    pub fn learned(&mut self, holder: Holder, domain: u16, epoch: u64) -> bool
        ensures { Writes result (has_domain self.old.tree domain
            && spec.takes_learned (accounts_of self.old domain) holder epoch)
            self.old self.new domain (spec.learned (accounts_of self.old domain)) }
    {
        let mut state = self.state(domain);
        if self.fits_learned(holder, domain, epoch) {
            state.stage = GrantStage::Held;
            state.mode = Mode::Included;
            self.put_state(domain, state);
            true
        } else {
            false
        }
    }

    /// Takes that a holder lets go of its grant, if it fits.
    pub fn let_go(&mut self, holder: Holder, domain: u16, epoch: u64) -> bool
        ensures { Writes result (has_domain self.old.tree domain
            && spec.takes_let_go (accounts_of self.old domain) holder epoch)
            self.old self.new domain (spec.let_go (accounts_of self.old domain)) }
    {
        let mut state = self.state(domain);
        if self.fits_let_go(holder, domain, epoch) {
            state.stage = GrantStage::Gone;
            self.put_state(domain, state);
            true
        } else {
            false
        }
    }

    /// Takes that a child comes into a mode, if the tree has it.
    pub fn in_mode(&mut self, domain: u16, mode: Mode) -> bool
        ensures { Writes result (has_domain self.old.tree domain && true) self.old self.new domain
            (spec.in_mode (accounts_of self.old domain) mode) }
    {
        let mut state = self.state(domain);
        if self.has(domain) {
            state.mode = mode;
            self.put_state(domain, state);
            true
        } else {
            false
        }
    }

    /// Takes the end of a command, if it is at work.
    pub fn settled(&mut self, domain: u16, epoch: u64, number: u32) -> bool
        ensures { Writes result (has_domain self.old.tree domain
            && spec.takes_settled (accounts_of self.old domain) epoch number)
            self.old self.new domain (spec.settled (accounts_of self.old domain) epoch number) }
    {
        let mut state = self.state(domain);
        if self.fits_settled(domain, epoch, number) {
            state.work = None;
            self.put_state(domain, state);
            true
        } else {
            false
        }
    }

    /// Takes a run of a command, if it fits.
    pub fn ran(&mut self, domain: u16, epoch: u64, number: u32, command: Command) -> bool
        ensures { Writes result (has_domain self.old.tree domain
            && spec.takes_run self.old.tree (accounts_of self.old) domain epoch number command)
            self.old self.new domain (spec.ran (accounts_of self.old domain) number command) }
    {
        let mut state = self.state(domain);
        if self.fits_run(domain, epoch, number, command) {
            state.ran = number;
            state.work = Some(command);
            self.put_state(domain, state);
            true
        } else {
            false
        }
    }

    /// Takes an order of an operator, if it fits. If memory is refused, nothing changes.
    pub fn ordered(
        &mut self,
        operator: u16,
        domain: u16,
        epoch: u64,
        number: u32,
        command: Command,
    ) -> Result<bool, AllocError>
        ensures taken { IfOk result (λ taken. Writes taken (has_domain self.old.tree domain
            && spec.takes_order (accounts_of self.old domain) operator epoch number) self.old self.new domain
            (spec.ordered (accounts_of self.old domain) command)) }
        ensures unchanged { OnErr result (self.new ≡ self.old) }
    {
        if !self.fits_order(operator, domain, epoch, number) {
            return Ok(false);
        }
        self.push_order(domain, command)?;
        Ok(true)
    }

    /// Sets what stands of a domain at the beginning, with nothing ordered. Returns false if the tree lacks it.
    pub fn assume(&mut self, domain: u16, state: GrantState) -> bool
        ensures { Writes result (has_domain self.old.tree domain) self.old self.new domain (account_of state []) }
    {
        if self.has(domain) {
            self.hand_over(domain, state);
            true
        } else {
            false
        }
    }

    /// Adds a command that was ordered under the grant of the beginning. Returns false if the tree lacks
    /// the domain. If memory is refused, nothing changes.
    pub fn assume_order(&mut self, domain: u16, command: Command) -> Result<bool, AllocError>
        ensures taken { IfOk result (λ taken. Writes taken (has_domain self.old.tree domain) self.old self.new domain
            (spec.ordered (accounts_of self.old domain) command)) }
        ensures unchanged { OnErr result (self.new ≡ self.old) }
    {
        if !self.has(domain) {
            return Ok(false);
        }
        self.push_order(domain, command)?;
        Ok(true)
    }

    /// Returns how many commands were ordered at a domain, 0 if the tree lacks it.
    pub fn count_at(&self, domain: u16) -> usize {
        if self.has(domain) {
            self.order_count(domain)
        } else {
            0
        }
    }

    /// Returns the command that was ordered at a domain under a number.
    pub fn order_at(&self, domain: u16, number: u32) -> Option<Command> {
        if domain == 0 {
            return None;
        }
        match self.orders.get(usize::from(domain) - 1) {
            Some(orders) => orders.at(number),
            None => None,
        }
    }
}
