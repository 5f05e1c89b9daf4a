//! What each limit is, as laws: each function does nothing.

ghost use Rattle.std.specs.Prelude.{◌≡◌, ◌+◌};
ghost use Rattle.smi_base.specs.declared.trees.TheConstants.{MOST_STATES, MOST_ACTIONS, MOST_STATIONS};
ghost use Rattle.smi_base.specs.declared.trees.TheConstants.{MOST_OPERATORS, MOST_OPERATORS_OF_A_STATION};
ghost use Rattle.smi_base.specs.declared.trees.TheConstants.{MOST_CLASSES, MOST_RULES_OF_A_CLASS, MOST_DOMAINS};
ghost use Rattle.smi_base.specs.declared.trees.TheConstants.{MOST_CHILDREN, MOST_LEVELS, MOST_DEVICES};
ghost use Rattle.smi_base.specs.declared.trees.TheConstants.{MOST_DEVICES_OF_A_DOMAIN, MOST_OBJECTS};
ghost use Rattle.smi_base.specs.declared.trees.TheConstants.{MOST_BYTES_OF_A_NAME, MOST_BYTES_OF_A_LINE};
ghost use Rattle.smi_base.specs.declared.trees.TheConstants.{MOST_BYTES_OF_A_FILE};
ghost use Rattle.smi_base.specs.declared.numbers.TheConstants.{LAST_BOOT, LAST_SEQUENCE, MOST_LINKS, MOST_SENT};

/// States what a tree has at most.
pub fn limits_of_trees()
    ensures states { MOST_STATES ≡ 64 }
    ensures actions { MOST_ACTIONS ≡ 64 }
    ensures stations { MOST_STATIONS ≡ 128 }
    ensures operators { MOST_OPERATORS ≡ 32 }
    ensures operators_of_a_station { MOST_OPERATORS_OF_A_STATION ≡ 8 }
    ensures classes { MOST_CLASSES ≡ 32 }
    ensures rules_of_a_class { MOST_RULES_OF_A_CLASS ≡ 32 }
    ensures domains { MOST_DOMAINS ≡ 128 }
    ensures children { MOST_CHILDREN ≡ 16 }
    ensures levels { MOST_LEVELS ≡ 8 }
    ensures devices { MOST_DEVICES ≡ 512 }
    ensures devices_of_a_domain { MOST_DEVICES_OF_A_DOMAIN ≡ 16 }
    ensures objects { MOST_OBJECTS ≡ MOST_DOMAINS + MOST_DEVICES }
{}

/// States what the file of a tree has at most.
pub fn limits_of_files()
    ensures name { MOST_BYTES_OF_A_NAME ≡ 16 }
    ensures line { MOST_BYTES_OF_A_LINE ≡ 200 }
    ensures file { MOST_BYTES_OF_A_FILE ≡ 262144 }
{}

/// States how far a station counts, and what one step of it does at most.
pub fn limits_of_stations()
    ensures boot { LAST_BOOT ≡ 4000000000 }
    ensures sequence { LAST_SEQUENCE ≡ 4000000000 }
    ensures links { MOST_LINKS ≡ 16 }
    ensures sent { MOST_SENT ≡ 64 }
{}
