//! The system errors that recorders meet, in words.

use crate::words::push;
use std::alloc::AllocError;
use text_lines::push_number;

/// A system error that a recorder may meet: its number and its words.
struct SystemError(u32, &'static str);

static SYSTEM_ERRORS: [SystemError; 33] = [
    SystemError(1, "Operation not permitted"),
    SystemError(2, "No such file or directory"),
    SystemError(4, "Interrupted system call"),
    SystemError(5, "Input/output error"),
    SystemError(6, "No such device or address"),
    SystemError(9, "Bad file descriptor"),
    SystemError(11, "Resource temporarily unavailable"),
    SystemError(12, "Cannot allocate memory"),
    SystemError(13, "Permission denied"),
    SystemError(14, "Bad address"),
    SystemError(17, "File exists"),
    SystemError(19, "No such device"),
    SystemError(20, "Not a directory"),
    SystemError(21, "Is a directory"),
    SystemError(22, "Invalid argument"),
    SystemError(23, "Too many open files in system"),
    SystemError(24, "Too many open files"),
    SystemError(26, "Text file busy"),
    SystemError(27, "File too large"),
    SystemError(28, "No space left on device"),
    SystemError(30, "Read-only file system"),
    SystemError(32, "Broken pipe"),
    SystemError(36, "File name too long"),
    SystemError(40, "Too many levels of symbolic links"),
    SystemError(75, "Value too large for defined data type"),
    SystemError(95, "Operation not supported"),
    SystemError(103, "Software caused connection abort"),
    SystemError(110, "Connection timed out"),
    SystemError(116, "Stale file handle"),
    SystemError(117, "Structure needs cleaning"),
    SystemError(121, "Remote I/O error"),
    SystemError(122, "Disk quota exceeded"),
    SystemError(133, "Memory page has hardware error"),
];

/// Appends the words on a system error.
pub(crate) fn push_system_error(out: &mut Vec<u8>, number: u32) -> Result<(), AllocError> {
    for i in 0..SYSTEM_ERRORS.len() {
        if SYSTEM_ERRORS[i].0 == number {
            return push(out, SYSTEM_ERRORS[i].1);
        }
    }
    push(out, "Unknown error ")?;
    push_number(out, u64::from(number))
}
