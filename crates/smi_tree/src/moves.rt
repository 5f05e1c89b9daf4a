//! The moves of all device classes.

use crate::row::Move;
use smi_base::MOST_ACTIONS;
use std::alloc::{AllocError, Global};
use std::marker::Model;

/// The moves of a class from one state, at hand by the action's number.
#[derive(Drop)]
struct StateMoves {
    by_action: Vec<Option<Move>>,
}

impl Model for StateMoves {
    ghost use Rattle.std.specs.Prelude.{List, Option};
    ghost use Rattle.smi_tree.specs.declared.row.Move.{Move};

    ghost Value = { List (Option Move) };

    ghost view = { λ m. m.by_action.items };
}

/// The moves of a class, at hand by the state's number and then by the action's.
#[derive(Drop)]
struct ClassMoves {
    by_state: Vec<StateMoves>,
}

impl Model for ClassMoves {
    ghost use Rattle.std.specs.Prelude.{List, Option};
    ghost use Rattle.smi_tree.specs.declared.row.Move.{Move};

    ghost Value = { List (List (Option Move)) };

    ghost view = { λ m. m.by_state.items };
}

/// Moves, in the order in which they came, and at hand by class, state and action.
#[derive(Drop)]
pub(crate) struct Moves {
    rows: Vec<Move>,
    by_class: Vec<ClassMoves>,
}

impl Model for Moves {
    ghost use Rattle.std.specs.Prelude.{List};
    ghost use Rattle.smi_tree.specs.declared.row.Move.{Move};

    ghost Value = { List Move };

    ghost view = { λ m. m.rows.items };

    ghost use Rattle.smi_tree.specs.MoveIndex.{IsMoveIndex};

    ghost invariant = { λ m. IsMoveIndex m.rows.items m.by_class.items };
}

ghost use Rattle.std.specs.Prelude.{◌≡◌, ℕ, OnOk, OnErr};
ghost use Rattle.smi_tree.specs.MoveIndex.{move_by, move_from, move_at, IsPutBy, IsPutFrom, IsPutAt};

/// Puts the row under its action.
fn put_by(by_action: &mut Vec<Option<Move>>, row: Move) -> Result<(), AllocError>
    ensures ok { OnOk result (IsPutBy by_action.old.items row by_action.new.items) }
    ensures err { OnErr result ((action : ℕ) → move_by by_action.new.items action
        ≡ move_by by_action.old.items action) }
{
    let place = usize::from(row.action);
    if by_action.is_empty() {
        // A state mostly has a row for each action: room for all is taken once.
        by_action.reserve(usize::from(MOST_ACTIONS) + 1)?;
    }
    while by_action.len() <= place {
        by_action.push(None)?;
    }
    by_action[place] = Some(row);
    Ok(())
}

/// Puts the row under its state and its action.
fn put_from(by_state: &mut Vec<StateMoves>, row: Move) -> Result<(), AllocError>
    ensures ok { OnOk result (IsPutFrom by_state.old.items row by_state.new.items) }
    ensures err { OnErr result ((state action : ℕ)
        → move_from by_state.new.items state action ≡ move_from by_state.old.items state action) }
{
    let alloc = *by_state.allocator();
    let place = usize::from(row.from);
    while by_state.len() <= place {
        by_state.push(StateMoves::new(alloc))?;
    }
    by_state[place].put(row)
}

/// Puts the row under its class, its state and its action.
fn put_at(by_class: &mut Vec<ClassMoves>, row: Move) -> Result<(), AllocError>
    ensures ok { OnOk result (IsPutAt by_class.old.items row by_class.new.items) }
    ensures err { OnErr result ((class state action : ℕ)
        → move_at by_class.new.items class state action ≡ move_at by_class.old.items class state action) }
{
    let alloc = *by_class.allocator();
    let place = usize::from(row.class);
    while by_class.len() <= place {
        by_class.push(ClassMoves::new(alloc))?;
    }
    by_class[place].put(row)
}

impl StateMoves {
    ghost use Rattle.std.specs.Prelude.{◌≡◌, ℕ, [], OnOk, OnErr};
    ghost use Rattle.smi_tree.specs.MoveIndex.{move_by, IsPutBy};

    fn new(alloc: Global) -> StateMoves
        ensures { result ≡ [] }
    {
        StateMoves {
            by_action: Vec::new(alloc),
        }
    }

    fn find(&self, action: u16) -> Option<Move>
        ensures { result ≡ move_by self.now action }
    {
        match self.by_action.get(usize::from(action)) {
            Some(row) => *row,
            None => None,
        }
    }

    fn put(&mut self, row: Move) -> Result<(), AllocError>
        ensures ok { OnOk result (IsPutBy self.old row self.new) }
        ensures err { OnErr result ((action : ℕ) → move_by self.new action ≡ move_by self.old action) }
    {
        put_by(&mut self.by_action, row)
    }
}

impl ClassMoves {
    ghost use Rattle.std.specs.Prelude.{◌≡◌, ℕ, [], OnOk, OnErr};
    ghost use Rattle.smi_tree.specs.MoveIndex.{move_from, IsPutFrom};

    fn new(alloc: Global) -> ClassMoves
        ensures { result ≡ [] }
    {
        ClassMoves {
            by_state: Vec::new(alloc),
        }
    }

    fn find(&self, state: u16, action: u16) -> Option<Move>
        ensures { result ≡ move_from self.now state action }
    {
        match self.by_state.get(usize::from(state)) {
            Some(moves) => moves.find(action),
            None => None,
        }
    }

    fn put(&mut self, row: Move) -> Result<(), AllocError>
        ensures ok { OnOk result (IsPutFrom self.old row self.new) }
        ensures err { OnErr result ((state action : ℕ)
            → move_from self.new state action ≡ move_from self.old state action) }
    {
        put_from(&mut self.by_state, row)
    }
}

impl Moves {
    ghost use Rattle.std.specs.Prelude.{◌≡◌, ◌-◌, [], ◌∷◌, ◌++◌, length, slice_get, None, OnOk};
    ghost use Rattle.smi_tree.specs.Hierarchy.{move_in};

    pub(crate) fn new(alloc: Global) -> Moves
        ensures { result ≡ [] }
    {
        Moves {
            rows: Vec::new(alloc),
            by_class: Vec::new(alloc),
        }
    }

    /// Returns the row of a class for a state and an action.
    pub(crate) fn find(&self, class: u16, state: u16, action: u16) -> Option<Move>
        ensures { result ≡ move_in self.now class state action }
    {
        match self.by_class.get(usize::from(class)) {
            Some(moves) => moves.find(state, action),
            None => None,
        }
    }

    /// Returns the row that was put last.
    #[inline(always)]
    pub(crate) fn last(&self) -> Option<Move>
        ensures { result ≡ slice_get self.now (length self.now - 1) }
    {
        self.rows.last().copied()
    }

    /// Puts a row at the end, for a state and an action that its class has no row for.
    pub(crate) fn push(&mut self, row: Move) -> Result<(), AllocError>
        requires { move_in self.old row.class row.from row.action ≡ None }
        ensures { OnOk result (self.new ≡ self.old ++ row ∷ []) }
    {
        self.rows.push(row)?;
        if let Err(refused) = put_at(&mut self.by_class, row) {
            self.rows.pop();
            return Err(refused);
        }
        Ok(())
    }
}
