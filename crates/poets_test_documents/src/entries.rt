//! Clerks and commands of entries.

use crate::documents::{comes_back, is_shape, one_entry};
use poets_value::Memory;

const REPLY: &str = r#"{"kind":"hopeless"}"#;

#[test]
fn clerks_have_numbers_below_2_to_32(rt: HostRuntime) -> Result<(), Memory> {
    let alloc = rt.alloc();
    for clerk in ["0", "1", "4294967295"] {
        let text = one_entry(alloc, clerk, "read 1", REPLY)?;
        assert!(rt; comes_back(alloc, text.as_str()), "{clerk}");
    }
    Ok(())
}

// Values that are no clerk's number.
const NO_CLERKS: [&str; 9] = [
    "4294967296",
    "4294967297",
    "18446744073709551616",
    "-1",
    "1.0",
    "1e0",
    "-0",
    "\"1\"",
    "null",
];

#[test]
fn other_values_are_no_clerk(rt: HostRuntime) -> Result<(), Memory> {
    let alloc = rt.alloc();
    for clerk in NO_CLERKS {
        let text = one_entry(alloc, clerk, "read 1", REPLY)?;
        assert!(rt; is_shape(alloc, text.as_str()), "{clerk}");
    }
    Ok(())
}

// Texts that are no printed command.
const NO_COMMANDS: [&str; 7] = [
    "read  1",
    "read 1;;",
    "1: read 1",
    "clerk",
    "",
    "read",
    "agents ann",
];

#[test]
fn commands_are_as_printed(rt: HostRuntime) -> Result<(), Memory> {
    let alloc = rt.alloc();
    for command in NO_COMMANDS {
        let text = one_entry(alloc, "1", command, REPLY)?;
        assert!(rt; is_shape(alloc, text.as_str()), "{command}");
    }
    Ok(())
}
