//! What a program says where a run ends: its exit status, and the line that it writes where the run did not come to its end.

ghost use Rattle.std.specs.Prelude.{◌≡◌, ◌≢◌, ◌≤◌, ◌+◌, ◌++◌, ◌∷◌, [], length, take, decimal, codes};
ghost use Rattle.zs_driving.specs.Errors.{complaint_of, status_of};
ghost use Rattle.zs_driving.specs.Statuses.{Complains, ComplainsOf, status_for};

use crate::driving::Driven;
use crate::errors::DriveError;
use itoa::Buffer;
use zs_keys::Sink;
use zs_lines::write_whole;

/// Room for the longest name, a space, a number and a line feed.
const LINE_LEN: usize = 40;

/// The exit status for an answer of a run. Where it stopped, a line that says why goes to `complaints`, whose own faults
/// change nothing.
///
/// The status is 0 at the end of input. 3 says that a line was not taken, 4 that a line is too long, 5 that there were too
/// many reads, 6 that the source failed, 7 that the sink did, and 8 that there was no memory. 2 is left to the program,
/// for its own words.
pub fn conclude<C: Sink>(complaints: &mut C, answer: Result<Driven, DriveError>) -> u8
    ensures status { result ≡ status_for answer }
    ensures complains { ComplainsOf answer (record { written = C.written complaints.old; faults = C.faults complaints.old })
        (record { written = C.written complaints.new; faults = C.faults complaints.new }) }
    ensures not_words { result ≢ 2 }
    ensures quiet { result ≡ 0 → complaints.new ≡ complaints.old }
{
    match answer {
        Ok(_) => 0,
        Err(error) => {
            complain_of(complaints, error);
            status_of(error)
        }
    }
}

/// The exit status for an error.
fn status_of(error: DriveError) -> u8
    ensures { result ≡ status_of error }
{
    match error {
        DriveError::BadLine(_) => 3,
        DriveError::LineTooLong(_) => 4,
        DriveError::OutOfTurns => 5,
        DriveError::ReadFault => 6,
        DriveError::WriteFault => 7,
        DriveError::NoMemory => 8,
    }
}

/// Writes one line. A fault of the sink changes nothing else.
pub fn complain<C: Sink>(complaints: &mut C, line: &[u8])
    ensures { Complains (record { written = C.written complaints.old; faults = C.faults complaints.old })
        (record { written = C.written complaints.new; faults = C.faults complaints.new }) line.now }
{
    let _ = write_whole(complaints, line);
}

/// Writes the line for an error, in no memory.
fn complain_of<C: Sink>(complaints: &mut C, error: DriveError)
    ensures { Complains (record { written = C.written complaints.old; faults = C.faults complaints.old })
        (record { written = C.written complaints.new; faults = C.faults complaints.new }) (complaint_of error) }
{
    match error {
        DriveError::BadLine(number) => complain_at(complaints, "BadLine ", number),
        DriveError::LineTooLong(number) => complain_at(complaints, "LineTooLong ", number),
        DriveError::OutOfTurns => complain(complaints, b"OutOfTurns\n"),
        DriveError::ReadFault => complain(complaints, b"ReadFault\n"),
        DriveError::WriteFault => complain(complaints, b"WriteFault\n"),
        DriveError::NoMemory => complain(complaints, b"NoMemory\n"),
    }
}

/// Writes a line of a name and a number.
fn complain_at<C: Sink>(complaints: &mut C, name: &str, number: u64)
    requires { length name.now ≤ 12 }
    ensures { Complains (record { written = C.written complaints.old; faults = C.faults complaints.old })
        (record { written = C.written complaints.new; faults = C.faults complaints.new }) (name.now ++ decimal number ++ 10 ∷ []) }
{
    let mut line = [0u8; LINE_LEN];
    let count = fill(
        &mut line,
        name.as_bytes(),
        Buffer::new().format(number).as_bytes(),
    );
    complain(complaints, &line[..count]);
}

/// Fills the front of a line with a name, a number's digits and a line feed, and returns how many bytes they are.
fn fill(line: &mut [u8], name: &[u8], digits: &[u8]) -> usize
    requires { length name.now + length digits.now + 1 ≤ length line.old }
    ensures fits { result ≤ length line.new }
    ensures filled { take result line.new ≡ name.now ++ digits.now ++ 10 ∷ [] }
{
    let behind = name.len() + digits.len();
    line[..name.len()].copy_from_slice(name);
    line[name.len()..behind].copy_from_slice(digits);
    line[behind] = b'\n';
    behind + 1
}
