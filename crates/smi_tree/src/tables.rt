//! A hierarchy while its lines are read.

use crate::devices::Devices;
use crate::moves::Moves;
use crate::names::Names;
use crate::number::Address;
use crate::row::{Class, Domain};
use std::alloc::Global;
use std::marker::Model;

/// What the lines so far declare.
#[derive(Drop)]
pub(crate) struct Tables {
    /// 0 until it is declared.
    pub(crate) number: u16,
    pub(crate) state_names: Names,
    pub(crate) action_names: Names,
    pub(crate) station_names: Names,
    pub(crate) addresses: Vec<Address>,
    pub(crate) operator_names: Names,
    /// The station of each operator.
    pub(crate) homes: Vec<u16>,
    pub(crate) class_names: Names,
    pub(crate) classes: Vec<Class>,
    pub(crate) moves: Moves,
    pub(crate) domain_names: Names,
    pub(crate) domains: Vec<Domain>,
    pub(crate) device_names: Names,
    pub(crate) devices: Devices,
}

impl Model for Tables {
    ghost use Rattle.smi_tree.specs.Hierarchy.{Hierarchy};

    ghost Value = { Hierarchy };

    ghost view = { λ t. record {
      number = t.number;
      state_names = t.state_names;
      action_names = t.action_names;
      station_names = t.station_names;
      addresses = t.addresses.items;
      operator_names = t.operator_names;
      homes = t.homes.items;
      class_names = t.class_names;
      classes = t.classes.items;
      moves = t.moves;
      domain_names = t.domain_names;
      domains = t.domains.items;
      device_names = t.device_names;
      devices = t.devices;
    } };
}

impl Tables {
    ghost use Rattle.std.specs.Prelude.{◌≡◌};
    ghost use Rattle.smi_tree.specs.Hierarchy.{undeclared};

    /// Returns tables without a declaration, and without the number.
    pub(crate) fn new(alloc: Global) -> Tables
        ensures { result ≡ undeclared }
    {
        Tables {
            number: 0,
            state_names: Names::new(alloc),
            action_names: Names::new(alloc),
            station_names: Names::new(alloc),
            addresses: Vec::new(alloc),
            operator_names: Names::new(alloc),
            homes: Vec::new(alloc),
            class_names: Names::new(alloc),
            classes: Vec::new(alloc),
            moves: Moves::new(alloc),
            domain_names: Names::new(alloc),
            domains: Vec::new(alloc),
            device_names: Names::new(alloc),
            devices: Devices::new(alloc),
        }
    }
}
