//! The results of running a command.

use crate::found::Found;
use crate::row::Field;

/// The exit status of a run, and what it wrote.
#[derive(Drop)]
pub struct Ran {
    pub status: u8,
    pub out: Vec<u8>,
    pub err: Vec<u8>,
}

impl Ran {
    /// Answers with the exit status, or with what was written to one stream.
    pub fn find(&self, field: &Field, found: &mut Found) {
        let (status, out, err) = (self.status, self.out.as_slice(), self.err.as_slice());
        let text = field.text.as_str();
        match field.key.as_str() {
            "output" => self.put(out, err, text, found),
            "error output" => self.put(err, out, text, found),
            _ => found.text.show(&status),
        }
    }

    /// Answers with what was written to one stream. Unless the field's text is empty or ends in a
    /// line feed, the last line feed is left out. If there is none, or if the run wrote to the
    /// other stream too, the answer says so and shows the other stream.
    fn put(&self, written: &[u8], other: &[u8], text: &str, found: &mut Found) {
        found.other.push_lossy(written);
        let written = found.other.as_str();
        let compared = if text.is_empty() || text.ends_with('\n') {
            Some(written)
        } else {
            written.strip_suffix("\n")
        };
        match compared {
            Some(compared) if other.is_empty() => found.text.push(compared),
            _ => {
                found.text.push(written);
                found.text.push("with no line feed, or beside this: ");
                found.text.push_lossy(other);
            }
        }
    }

    /// Reports whether two runs had the same results.
    pub fn is_same(&self, other: &Ran) -> bool {
        self.status == other.status && self.out == other.out && self.err == other.err
    }

    /// Reports whether this run was cut short: its status is 2, its output is a prefix of the whole
    /// run's output, and it wrote no errors.
    pub fn is_cut(&self, whole: &Ran) -> bool {
        self.status == 2
            && self.err.is_empty()
            && whole.out.as_slice().starts_with(self.out.as_slice())
    }
}
