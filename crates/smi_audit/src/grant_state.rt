//! What is known of a domain, and what each entry about it asks of that.

ghost use Rattle.std.specs.Prelude.{◌≡◌, [], ◌∷◌};
ghost use Rattle.smi_audit.specs.Kept.{account_of, fresh_state};
ghost use Rattle.smi_audit.specs.Tables as spec;

use crate::stage::GrantStage;
use smi_grant::{Command, Holder};
use smi_rows::Mode;
use smi_tree::{Tree, holder_station, is_parent};

/// What is known of the last grant of a domain, but for what was ordered under it.
#[derive(Clone, Copy, PartialEq, Eq)]
pub struct GrantState {
    /// The epoch of the last grant or end of a grant.
    pub epoch: u64,
    /// The holder by that, `Free` if the grant has ended.
    pub holder: Holder,
    /// How far the holder has come with the grant.
    pub stage: GrantStage,
    /// How many commands have run under the grant.
    pub ran: u32,
    /// The command that is at work.
    pub work: Option<Command>,
    /// The mode in which the domain above holds it.
    pub mode: Mode,
}

/// Returns true if two holders are one.
pub fn same_holder(one: Holder, other: Holder) -> bool
    ensures { result ≡ smi_grant_specs.same_holder one other }
{
    match (one, other) {
        (Holder::Free, Holder::Free) => true,
        (Holder::Operator(a), Holder::Operator(b)) => a == b,
        (Holder::Domain(a), Holder::Domain(b)) => a == b,
        _ => false,
    }
}

ghost use Rattle.smi_grant.specs.Holder as smi_grant_specs;

/// Returns true if a command is at work, and it is this one.
pub fn works_on(work: Option<Command>, command: Command) -> bool
    ensures { result ≡ spec.works_on work command }
{
    match work {
        None => false,
        Some(found) => same_command(found, command),
    }
}

/// Returns true if two commands are one.
pub fn same_command(one: Command, other: Command) -> bool
    ensures { result ≡ spec.same_command one other }
{
    one.verb() == other.verb() && one.argument() == other.argument()
}

/// Returns true if this holder may hold a domain of the tree, as its next holder.
pub fn may_hold(tree: &Tree, domain: u16, holder: Holder) -> bool
    ensures { result ≡ spec.may_hold tree.now domain holder }
{
    match holder {
        Holder::Free => false,
        Holder::Operator(_) => holder_station(tree, holder).is_some(),
        Holder::Domain(above) => is_parent(tree, domain, above),
    }
}

/// Returns true if a domain hands a command on to a child.
pub fn forwards(tree: &Tree, above: u16, command: Command, domain: u16) -> bool
    ensures { result ≡ spec.forwards tree.now above command domain }
{
    match command {
        Command::Do(action) => tree.accepts(above, action),
        Command::Include(target)
        | Command::Exclude(target)
        | Command::Manual(target)
        | Command::Ignore(target) => tree.is_below(target, domain),
    }
}

/// Returns true if a child in this mode is sent commands.
pub fn is_commanded(mode: Mode) -> bool
    ensures { result ≡ is_commanded mode }
{
    match mode {
        Mode::Included | Mode::Ignored => true,
        Mode::Manual => false,
    }
}

ghost use Rattle.smi_protocol.specs.Children.{is_commanded};

impl GrantState {
    /// Makes the state of a domain that has just changed hands.
    pub fn begun(epoch: u64, holder: Holder) -> GrantState
        ensures { account_of result [] ≡ spec.begun epoch holder }
    {
        GrantState {
            epoch,
            holder,
            stage: GrantStage::Given,
            ran: 0,
            work: None,
            mode: Mode::Included,
        }
    }

    /// Returns true if an epoch is the next one.
    pub fn is_next(&self, epoch: u64) -> bool
        ensures { result ≡ (epoch == self.now.epoch + 1) }
    {
        self.epoch < epoch && epoch - self.epoch == 1
    }

    ghost use Rattle.std.specs.Prelude.{◌==◌, ◌+◌, ◌&&◌};
    ghost use Rattle.smi_grant.specs.declared.Holder.TheVariants.{Operator};

    /// Returns true if the domain may be granted next, at this epoch and to this holder.
    pub fn takes_grant(&self, tree: &Tree, domain: u16, epoch: u64, holder: Holder) -> bool
        ensures { result ≡ spec.takes_grant tree.now domain (account_of self.now []) epoch holder }
    {
        self.is_next(epoch)
            && epoch % 2 == 1
            && may_hold(tree, domain, holder)
            && self.stage.is_loose()
    }

    /// Returns true if this operator may issue its next command under the grant of this epoch, under which `count` were
    /// issued.
    pub fn takes_order(&self, count: usize, operator: u16, epoch: u64, number: u32) -> bool
        ensures { result ≡ (smi_grant_specs.same_holder self.now.holder (Operator operator) && (epoch == self.now.epoch
            && (number == count + 1 && spec.is_held self.now.stage))) }
    {
        same_holder(self.holder, Holder::Operator(operator))
            && epoch == self.epoch
            && count < number as usize
            && number as usize - count == 1
            && self.stage.is_held()
    }

    /// Returns true if a command of this grant and number is the one that is at work.
    pub fn takes_settled(&self, epoch: u64, number: u32) -> bool
        ensures { result ≡ spec.takes_settled (account_of self.now []) epoch number }
    {
        epoch == self.epoch && number == self.ran && self.work.is_some()
    }

    /// Returns true if a command of this grant and number is the next one.
    pub fn is_next_run(&self, epoch: u64, number: u32) -> bool
        ensures { result ≡ (epoch == self.now.epoch && number == self.now.ran + 1) }
    {
        epoch == self.epoch && self.ran < number && number - self.ran == 1
    }

    /// Returns true if its grant may end next, at this epoch.
    pub fn takes_end(&self, epoch: u64) -> bool
        ensures { result ≡ spec.takes_end (account_of self.now []) epoch }
    {
        self.is_next(epoch) && epoch % 2 == 0 && self.stage.is_gone()
    }

    /// Returns true if its holder may learn of the grant of this epoch next.
    pub fn takes_learned(&self, holder: Holder, epoch: u64) -> bool
        ensures { result ≡ spec.takes_learned (account_of self.now []) holder epoch }
    {
        epoch == self.epoch
            && same_holder(self.holder, holder)
            && self.stage.is_given()
            && !is_free(holder)
    }

    /// Returns true if its holder may let go of it next.
    pub fn takes_let_go(&self, holder: Holder, epoch: u64) -> bool
        ensures { result ≡ spec.takes_let_go (account_of self.now []) holder epoch }
    {
        epoch == self.epoch && same_holder(self.holder, holder) && self.stage.is_held()
    }
}

/// Returns true if a holder is nobody.
fn is_free(holder: Holder) -> bool
    ensures { result ≡ smi_grant_specs.is_free holder }
{
    match holder {
        Holder::Free => true,
        Holder::Operator(_) | Holder::Domain(_) => false,
    }
}
