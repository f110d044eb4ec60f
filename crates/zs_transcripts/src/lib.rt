//! Tests of the script language and of whole runs: lines, transcripts of scripts, runs that stop, faults in mid-stream, and
//! the words of the program.
#![tactic(auto)]

#[cfg(test)]
mod faults;
#[cfg(test)]
mod full_fifo;
#[cfg(test)]
mod hostile;
#[cfg(test)]
mod lines;
#[cfg(test)]
mod pieces;
#[cfg(test)]
mod session;
#[cfg(test)]
mod spelling;
#[cfg(test)]
mod stops;
#[cfg(test)]
mod streams;
#[cfg(test)]
mod transcripts;
#[cfg(test)]
mod words;
