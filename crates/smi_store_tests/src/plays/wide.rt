//! A tree of six stations with 40 domains and 200 devices, as many as examples/detector.tree has.

use std::alloc::{AllocError, Global};

const STATIONS: u16 = 6;

const DOMAINS: u16 = 40;

const DEVICES: u16 = 200;

const HEAD: &str =
    "tree 40\nstate OFF\nstate READY\nstate RUNNING\nstate ERROR\naction CONFIGURE\naction START\naction STOP\n";

const CLASSES: &str =
    "devclass DEV OFF\nmove DEV OFF CONFIGURE READY\nmove DEV READY START RUNNING\nmove DEV RUNNING STOP READY\nunitclass UNIT OFF\naccept UNIT CONFIGURE\naccept UNIT START\naccept UNIT STOP\nany UNIT ERROR ERROR\nall UNIT RUNNING RUNNING\nall UNIT READY READY\nall UNIT OFF OFF\n";

/// Appends the stations, each with an operator.
fn add_stations(alloc: Global, text: &mut String) -> Result<(), AllocError> {
    for n in 1..=STATIONS {
        text.push_str(&format!(in alloc; "station S{n} 127.0.0.1:{}\n", 9000 + n)?)?;
    }
    for n in 1..=STATIONS {
        text.push_str(&format!(in alloc; "operator O{n} S{n}\n")?)?;
    }
    Ok(())
}

/// Appends the domains, each with up to four below it, which other stations keep.
fn add_domains(alloc: Global, text: &mut String) -> Result<(), AllocError> {
    text.push_str("domain D1 S1 UNIT -\n")?;
    for n in 2..=DOMAINS {
        let line = format!(in alloc; "domain D{n} S{} UNIT D{}\n", n % STATIONS + 1, (n + 2) / 4)?;
        text.push_str(&line)?;
    }
    Ok(())
}

fn add_devices(alloc: Global, text: &mut String) -> Result<(), AllocError> {
    for n in 1..=DEVICES {
        text.push_str(&format!(in alloc; "device V{n} D{} DEV\n", n % DOMAINS + 1)?)?;
    }
    Ok(())
}

/// Returns the text of its file.
pub(crate) fn text(alloc: Global) -> Result<String, AllocError> {
    let mut text = String::new(alloc);
    text.push_str(HEAD)?;
    add_stations(alloc, &mut text)?;
    text.push_str(CLASSES)?;
    add_domains(alloc, &mut text)?;
    add_devices(alloc, &mut text)?;
    Ok(text)
}
