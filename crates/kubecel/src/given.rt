//! Finds what the program is given.

use std::collections::BTreeMap;
use std::{env, fs, io};

/// The option by which the script `kubecel` hands over words that a system wouldn't take, since
/// they are too long together, and what is read in place of files. It has the paths of two files,
/// and is the whole command line then. No user gives it.
const IN_FILES: &str = "--words";

/// What the program is given.
#[derive(Drop)]
pub struct Given {
    /// The words of the command line. The first is the program's name.
    pub words: Vec<String>,
    /// What is read in place of the files at these paths. It is the whole path of another file, `!`
    /// and the reason why the file isn't read, or else a text of JSON, which begins with neither.
    pub others: BTreeMap<String, String>,
}

/// Returns the texts of a file, each of which ends in the character NUL.
fn texts_of(rt: &HostRuntime, path: &str) -> io::Result<Vec<String>> {
    let text = fs::read_to_string(rt, path)?;
    let mut texts = Vec::new(rt.alloc());
    for part in text.split_terminator('\0') {
        texts.push(String::from_str(rt.alloc(), part)?)?;
    }
    Ok(texts)
}

/// Returns what is read in place of which files: these texts are a path, what is read there, the
/// next path and so on. If a path comes twice, the first counts.
fn others_of(rt: &HostRuntime, texts: Vec<String>) -> io::Result<BTreeMap<String, String>> {
    let mut others = BTreeMap::new(rt.alloc());
    let mut path: Option<String> = None;
    for text in texts.into_iter() {
        match path.take() {
            None => path = Some(text),
            Some(path) => {
                if others.get(path.as_str()).is_none() {
                    others.insert(path, text)?;
                }
            }
        }
    }
    Ok(others)
}

/// Returns the words of this command line, or those of the file that it names, and what is read in
/// place of other files.
pub fn given_by(rt: &HostRuntime, mut words: Vec<String>) -> io::Result<Given> {
    if let [_, option, file, others] = words.as_slice() {
        if option.as_str() == IN_FILES {
            return Ok(Given {
                words: texts_of(rt, file.as_str())?,
                others: others_of(rt, texts_of(rt, others.as_str())?)?,
            });
        }
    }
    // (the usage shows it, whatever the file of the program is called)
    if let Some(name) = words.first_mut() {
        *name = String::from_str(rt.alloc(), "kubecel")?;
    }
    Ok(Given {
        words,
        others: BTreeMap::new(rt.alloc()),
    })
}

/// Returns the words that the program was started with. `None` if one of them isn't UTF-8.
pub fn words_at_start(rt: &HostRuntime) -> io::Result<Option<Vec<String>>> {
    match env::args(rt) {
        Ok(words) => Ok(Some(words.collect(rt.alloc())?)),
        Err(error) if error.kind() == io::ErrorKind::InvalidData => Ok(None),
        Err(error) => Err(error),
    }
}
