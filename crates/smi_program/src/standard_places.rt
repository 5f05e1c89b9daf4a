//! Opens the descriptors of standard input, output and error that were closed when the program was started.
//!
//! `main` of the crate `smi` calls it first of all, before anything is opened. Otherwise a socket or a store would get
//! the descriptor 0, 1 or 2, and what the program prints would go into it.

/// The descriptor of the standard input.
const STANDARD_INPUT: i32 = 0;

/// The descriptor of standard error, the last of the three.
const STANDARD_ERROR: i32 = 2;

/// The file that is opened in place of a stream that is closed.
const NULL_DEVICE: &[u8] = b"/dev/null";

/// Opens `/dev/null` at each of the three descriptors that is closed. It rests on the system's rule that an open takes
/// the lowest free descriptor.
///
/// The input is opened for writing, and an output for reading, so that a read or a write there fails, as it did on the
/// closed descriptor.
pub fn fill_standard_places() {
    for _ in STANDARD_INPUT..=STANDARD_ERROR {
        let descriptor = os::open_read(NULL_DEVICE);
        if descriptor > STANDARD_ERROR {
            // All three are open.
            libc::close(descriptor);
            return;
        }
        if descriptor == STANDARD_INPUT {
            libc::close(descriptor);
            os::open_append(NULL_DEVICE);
        }
    }
}
