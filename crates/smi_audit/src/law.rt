//! What holds of journals that grow while they are merged, as a law: the function does nothing.

ghost use Rattle.std.specs.Prelude.{ℕ, List};
ghost use Rattle.smi_protocol.specs.declared.Entry.{Entry};
ghost use Rattle.smi_audit.specs.Audited.{AuditState};
ghost use Rattle.smi_audit.specs.Merged.{Further, pushed};

/// An entry may come to the end of a journal at any time: what was taken from the journals and is left of them is also
/// what was taken and is left with the entry. So journals can be read, and merged, a part at a time.
pub fn journals_may_grow()
    ensures { (base : List Entry) (from : List (List Entry)) (a : AuditState) (left : List (List Entry)) (i : ℕ)
        (x : Entry) → Further base from a left → Further base (pushed from i x) a (pushed left i x) }
{}
