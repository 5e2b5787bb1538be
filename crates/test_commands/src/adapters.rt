//! The files of the system and its output.

use mi_call::{RealFiles, RealOut};
use mi_outside::{Files, Sink};
use std::test::Fail;
use std::{env, fs, process};

const TEXT: &[u8] = b"insert,7,0,0\n";

/// A name in the folder for temporary files that no other process takes.
fn temporary_name(rt: &HostRuntime, word: &str) -> Result<String, Fail> {
    let folder = env::temp_dir(rt)?;
    let folder = folder.to_string_lossy();
    let process = process::id(rt.process());
    Ok(format!(in rt.alloc(); "{folder}/mindex_{process}_{word}")?)
}

#[test]
fn real_files_are_read_and_real_output_is_written(rt: HostRuntime) -> Result<(), Fail> {
    let alloc = rt.alloc();
    let name = temporary_name(&rt, "read")?;
    let missing = temporary_name(&rt, "missing")?;
    fs::write(&rt, name.as_str(), TEXT)?;
    let mut files = RealFiles::new(&rt);
    let mut bytes = Vec::new(alloc);
    assert!(rt; files.read(name.as_str(), &mut bytes).is_ok());
    assert_eq!(rt; bytes.as_slice(), TEXT);
    assert!(rt; files.read(missing.as_str(), &mut bytes).is_err());
    let mut out = RealOut::new(Vec::new(alloc));
    assert_eq!(rt; out.write(b"pages").ok(), Some(5));
    fs::remove_file(&rt, name.as_str())?;
    Ok(())
}
