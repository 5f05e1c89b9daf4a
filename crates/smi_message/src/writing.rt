//! Writes a datagram as its bytes.

ghost use Rattle.std.specs.Prelude.{◌≡◌};
ghost use Rattle.smi_message.specs.Kinds as spec;
ghost use Rattle.smi_message.specs.Layout.{bytes_of};
ghost use Rattle.smi_message.specs.Spelling.{spelling};

use crate::fields::Fields;
use crate::reading::layout_of;
use crate::{Body, Datagram};
use byteorder::{BigEndian, ByteOrder};
use smi_grant::Holder;

/// Returns the one spelling of a datagram.
pub fn encode(datagram: &Datagram) -> [u8; 44]
    ensures { result ≡ spelling datagram.now }
{
    write_fields(&fields_of(datagram.from, datagram.to, datagram.tree, &datagram.body))
}

/// Returns the bytes of a datagram with these fields.
fn write_fields(fields: &Fields) -> [u8; 44]
    ensures { result ≡ bytes_of fields.now }
{
    let mut out = [0; 44];
    out[0] = b'S';
    out[1] = b'M';
    out[2] = fields.layout;
    out[3] = fields.kind;
    BigEndian::write_u16(&mut out[4..], fields.from);
    BigEndian::write_u16(&mut out[6..], fields.to);
    BigEndian::write_u16(&mut out[8..], fields.subject);
    out[10] = fields.holder_kind;
    out[11] = fields.phase;
    BigEndian::write_u16(&mut out[12..], fields.holder);
    BigEndian::write_u16(&mut out[14..], fields.code);
    BigEndian::write_u64(&mut out[16..], fields.epoch);
    BigEndian::write_u32(&mut out[24..], fields.number);
    BigEndian::write_u16(&mut out[28..], fields.argument);
    BigEndian::write_u16(&mut out[30..], fields.tree);
    BigEndian::write_u32(&mut out[32..], fields.echo);
    BigEndian::write_u32(&mut out[36..], fields.boot);
    BigEndian::write_u32(&mut out[40..], fields.sequence);
    out
}

/// Returns the fields of a datagram; those that its kind does not use are zero.
fn fields_of(from: u16, to: u16, tree: u16, body: &Body) -> Fields
    ensures { result ≡ spec.fields_of from to tree body.now }
{
    match *body {
        Body::Ask(domain) => plain(1, from, to, tree, domain),
        Body::Take {
            domain,
            holder,
            seen,
        } => Fields {
            epoch: seen,
            ..about_grant(2, from, to, tree, domain, holder)
        },
        Body::Drop {
            domain,
            holder,
            epoch,
        } => Fields {
            epoch,
            ..about_grant(3, from, to, tree, domain, holder)
        },
        Body::Run {
            domain,
            holder,
            epoch,
            number,
            command,
        } => Fields {
            layout: layout_of(command),
            code: command.verb(),
            epoch,
            number,
            argument: command.argument(),
            ..about_grant(4, from, to, tree, domain, holder)
        },
        Body::Tell { domain, told } => Fields {
            phase: told.phase.number(),
            code: told.outcome,
            epoch: told.epoch,
            number: told.last,
            ..about_grant(5, from, to, tree, domain, told.holder)
        },
        Body::Watch { object, boot: echo } => Fields {
            echo,
            ..plain(6, from, to, tree, object)
        },
        Body::State {
            object,
            boot: echo,
            version,
            state,
        } => Fields {
            code: state,
            echo,
            boot: version.boot,
            sequence: version.sequence,
            ..plain(7, from, to, tree, object)
        },
        Body::Unwatch { object, boot: echo } => Fields {
            echo,
            ..plain(8, from, to, tree, object)
        },
    }
}

fn plain(kind: u8, from: u16, to: u16, tree: u16, subject: u16) -> Fields
    ensures { result ≡ spec.plain kind from to tree subject }
{
    Fields {
        layout: 1,
        kind,
        from,
        to,
        subject,
        holder_kind: 0,
        phase: 0,
        holder: 0,
        code: 0,
        epoch: 0,
        number: 0,
        argument: 0,
        tree,
        echo: 0,
        boot: 0,
        sequence: 0,
    }
}

fn about_grant(kind: u8, from: u16, to: u16, tree: u16, domain: u16, holder: Holder) -> Fields
    ensures { result ≡ spec.about_grant kind from to tree domain holder }
{
    Fields {
        holder_kind: holder.kind(),
        holder: holder.number(),
        ..plain(kind, from, to, tree, domain)
    }
}
