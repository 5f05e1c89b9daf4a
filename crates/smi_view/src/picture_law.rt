//! What holds of every picture.

ghost use Rattle.std.specs.Prelude.{ℕ, ◌≡◌, ◌⊎◌, List, Option, Some, true};
ghost use Rattle.smi_grant.specs.Rank.{RanksBelow};
ghost use Rattle.smi_grant.specs.Record as grants;
ghost use Rattle.smi_grant.specs.declared.state.Version.{Version};
ghost use Rattle.smi_view.specs.Keeping.{KeepsUp};
ghost use Rattle.smi_view.specs.Newest.{ShowsAtLeast, StandsAtLeast, is_further};
ghost use Rattle.smi_view.specs.Noted.{
  HasFurthest,
  HasNewest,
  IsShownIn,
  IsToldIn,
  Note,
  TakesIn,
  domain_after,
  object_after,
};
ghost use Rattle.smi_view.specs.Pictured.{Pictured};
ghost use Rattle.smi_view.specs.declared.sight.Hearing.{Hearing};
ghost use Rattle.smi_view.specs.declared.sight.Sight.{Sight};

/// States, of whatever was noted in whatever order: what is had of an object then is no older than any state of it
/// that was noted, it is one of these or what was had before, and it is no older than what was had before.
pub fn newest_is_kept()
    ensures newest { (object : ℕ) (had : Option Sight) (notes : List Note) →
        HasNewest object notes (object_after object had notes) }
    ensures noted { (object : ℕ) (had : Option Sight) (notes : List Note) (seen : Sight) →
        object_after object had notes ≡ Some seen → (had ≡ Some seen) ⊎ IsShownIn object seen notes }
    ensures never_back { (object : ℕ) (version : Version) (had : Option Sight) (notes : List Note) →
        ShowsAtLeast version had → ShowsAtLeast version (object_after object had notes) }
{}

/// States, of whatever was noted in whatever order: the record that is had of a domain then has come as far as any
/// that was noted, it is one of these or the one that was had before, and has come as far as that one. To have come
/// further is to rank above.
pub fn furthest_is_kept()
    ensures furthest { (domain : ℕ) (had : Option Hearing) (notes : List Note) →
        HasFurthest domain notes (domain_after domain had notes) }
    ensures noted { (domain : ℕ) (had : Option Hearing) (notes : List Note) (heard : Hearing) →
        domain_after domain had notes ≡ Some heard →
        ((before : Hearing) × (had ≡ Some before) × (before.«record» ≡ heard.«record»))
        ⊎ IsToldIn domain heard.«record» notes }
    ensures never_back { (domain : ℕ) (told : grants.Standing) (had : Option Hearing) (notes : List Note) →
        StandsAtLeast told had → StandsAtLeast told (domain_after domain had notes) }
    ensures ranks { (r s : grants.Standing) → is_further r s ≡ true → RanksBelow s r }
{}

/// States that a picture into which notes are taken keeps up with what was had in it before, of each object and each
/// domain.
pub fn nothing_goes_back()
    ensures { (notes : List Note) (before after : Pictured) → TakesIn notes before after → KeepsUp before after }
{}
