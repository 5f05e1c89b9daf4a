//! What the lines of a block say: how a domain stands, how a link, and which commands are pending.

use crate::entry_words::{epoch, record};
use crate::fault::LineFault;
use crate::resolve::{command, domain, holder, mode};
use crate::word::{cut_word, next_word, number_32, one_word, six_words, three_words};
use smi_grant::{Command, Holder, Record};
use smi_rows::Mode;
use smi_tree::Tree;

/// How a domain of the station stands.
#[derive(Clone, Copy)]
pub struct DomainStands {
    pub domain: u16,
    pub record: Record,
}

/// The state of a holder's link to a domain.
#[derive(Clone, Copy)]
pub struct LinkStands {
    pub holder: Holder,
    pub domain: u16,
    /// The epoch that the holder has seen, or of its grant.
    pub epoch: u64,
    pub stage: LinkStage,
}

/// How far a link has come.
#[derive(Clone, Copy)]
pub enum LinkStage {
    Out,
    Taking,
    /// Held; this many commands were issued under the grant, and the holder has the domain in this mode.
    Held { number: u32, mode: Mode },
    Dropping,
}

/// A command whose end its holder has not heard of.
#[derive(Clone, Copy)]
pub struct PendingCommand {
    pub holder: Holder,
    pub domain: u16,
    pub epoch: u64,
    pub number: u32,
    pub command: Command,
}

/// Returns the state of a domain by the words `D E H N PHASE X`.
pub(crate) fn domain_stands(tree: &Tree, rest: Option<&[u8]>) -> Result<DomainStands, LineFault> {
    let (what, grant, who, last, phase, outcome) = six_words(rest)?;
    Ok(DomainStands {
        record: record(tree, who, grant, last, phase, outcome)?,
        domain: domain(tree, what)?,
    })
}

/// Returns the stage of a link that is not held.
fn stage_not_held(word: &[u8]) -> Result<LinkStage, LineFault> {
    match word {
        b"out" => Ok(LinkStage::Out),
        b"taking" => Ok(LinkStage::Taking),
        b"dropping" => Ok(LinkStage::Dropping),
        _ => Err(LineFault::Malformed),
    }
}

/// Returns the state of a link by the words `H D STAGE E`, of a held one `H D held E N MODE`.
pub(crate) fn link_stands(tree: &Tree, rest: Option<&[u8]>) -> Result<LinkStands, LineFault> {
    let rest = rest.ok_or(LineFault::WordCount)?;
    let (who, rest) = next_word(rest)?;
    let (what, rest) = next_word(rest)?;
    let (stage, rest) = cut_word(rest);
    if stage == b"held".as_slice() {
        let (grant, count, how) = three_words(rest)?;
        return Ok(LinkStands {
            epoch: epoch(grant)?,
            stage: LinkStage::Held {
                number: number_32(count)?,
                mode: mode(how)?,
            },
            holder: holder(tree, who)?,
            domain: domain(tree, what)?,
        });
    }
    let grant = one_word(rest)?;
    Ok(LinkStands {
        epoch: epoch(grant)?,
        stage: stage_not_held(stage)?,
        holder: holder(tree, who)?,
        domain: domain(tree, what)?,
    })
}

/// Returns a pending command by the words `H D E N COMMAND`.
pub(crate) fn pending_command(
    tree: &Tree,
    rest: Option<&[u8]>,
) -> Result<PendingCommand, LineFault> {
    let (who, what, grant, count, verb, about) = six_words(rest)?;
    Ok(PendingCommand {
        epoch: epoch(grant)?,
        number: number_32(count)?,
        holder: holder(tree, who)?,
        domain: domain(tree, what)?,
        command: command(tree, verb, about)?,
    })
}
