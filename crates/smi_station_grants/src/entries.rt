ghost use Rattle.std.specs.Prelude.{◌≡◌};
ghost use Rattle.smi_station_grants.specs.Entries.{entry_or};

/// Returns what is at a number, counted from 1, or the default if nothing is there.
pub fn entry_of<T: Copy>(list: &[T], number: u16, other: T) -> T
    ensures { result ≡ entry_or list.now number other }
{
    if number == 0 {
        return other;
    }
    match list.get(usize::from(number) - 1) {
        Some(found) => *found,
        None => other,
    }
}
