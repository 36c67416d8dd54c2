//! The files of the working directory.

ghost use Rattle.std.specs.Prelude.{◌≡◌, ◌+◌, ◌<◌, ◌≤◌, ◌↔◌, [], Some, None, Ok, Err, option_copied, vec_len, vec_capacity, length, take, drop, IfOk, OnOk, IsTrue};
ghost use Rattle.nj_disk.specs.Cited.{Consumes, IsAtEnd};

use nj_scope::{FileSource, HashKeys, SourceFault};
use std::alloc::{AllocError, Global};
use std::fs::{self, OpenFile};
use std::io::{ErrorKind, Read};
use std::marker::Model;
use std::random::RandomSource;
use std::rt::Files;

/// The greatest number of bytes that a file may have.
const MOST_BYTES: usize = 1_073_741_824;

/// The greatest number of reads of a file: one for each byte, and one at the end.
const MOST_READS: u32 = 1_073_741_825;

/// The capacity that is reserved for a file beyond its stated size.
const MORE_CAPACITY: usize = 16_384;

/// How many bytes are read at most once the buffer is full: most files end there.
const BEYOND: usize = 64;

/// How many bytes are zeroed for one read at most: few enough to be still in the processor's cache
/// when the read fills them.
const PIECE: usize = 131_072;

/// The files of the working directory. One name may denote standard input.
#[derive(Drop)]
pub struct DiskFiles<R: Drop> {
    rt: R,
    input_name: Option<String>,
    // Whether all files but regular files are refused.
    regular_only: bool,
    keys: HashKeys,
    failed: u64,
}

impl<R: Drop> Model for DiskFiles<R> {
    ghost use Rattle.std.specs.Prelude.{option_map, string_bytes};
    ghost use Rattle.nj_disk.specs.Disk.{Disk};

    ghost Value = { Disk };

    ghost view = { λ d. record {
      input_name = option_map string_bytes d.input_name;
      failed = d.failed;
    } };
}

impl<R: RandomSource + Drop> DiskFiles<R> {
    /// The files of the working directory. A file of the name `stdin_for` is read from standard
    /// input; the name is compared as it is written. The keys of hashes are drawn here, once for
    /// the run. If the system has no random bytes, the fixed keys are used, which everyone knows.
    pub fn new(rt: R, alloc: Global, stdin_for: Option<&str>) -> Result<DiskFiles<R>, AllocError>
        ensures { IfOk result (λ disk. disk ≡
            record { input_name = option_copied stdin_for.entry; failed = 0 }) }
    {
        let input_name = match stdin_for {
            Some(name) => Some(String::from_str(alloc, name)?),
            None => None,
        };
        let keys = drawn_keys(&rt);
        Ok(DiskFiles {
            rt,
            input_name,
            regular_only: false,
            keys,
            failed: 0,
        })
    }

    /// The regular files of the working directory. Reading any other file fails with `Io`: a
    /// directory, or a pipe, which could block for ever.
    pub fn of_regular_files(rt: R) -> DiskFiles<R>
        ensures { result ≡ record { input_name = None; failed = 0 } }
    {
        let keys = drawn_keys(&rt);
        DiskFiles {
            rt,
            input_name: None,
            regular_only: true,
            keys,
            failed: 0,
        }
    }
}

/// Keys that nobody else knows, if the system has random bytes.
fn drawn_keys<R: RandomSource>(rt: &R) -> HashKeys {
    let mut drawn = [0; 8];
    match rt.fill_bytes(&mut drawn) {
        Ok(()) => HashKeys::new(u64::from_le_bytes(drawn)),
        Err(_) => HashKeys::default(),
    }
}

impl<R: Files + Input + Drop> DiskFiles<R> {
    // The bytes of the file, or of standard input if its name denotes that.
    fn outcome(&self, alloc: Global, path: &str) -> Result<Option<Vec<u8>>, SourceFault> {
        if self.is_input(path) {
            return Ok(Some(read_whole(alloc, &mut self.rt.reader(), 0)?));
        }
        self.check_type(path)?;
        match fs::open(&self.rt, path) {
            Ok(mut file) => {
                let stated = file.metadata().map_or(0, |metadata| metadata.len());
                Ok(Some(read_whole(alloc, &mut file, stated)?))
            }
            Err(e) if e.kind() == ErrorKind::NotFound => Ok(None),
            Err(_) => Err(SourceFault::Io),
        }
    }

    // Refuses all but a regular file, if only regular files are to be read. If the look-up fails,
    // opening the file reports why.
    fn check_type(&self, path: &str) -> Result<(), SourceFault> {
        if !self.regular_only {
            return Ok(());
        }
        match fs::metadata(&self.rt, path) {
            Ok(metadata) if !metadata.is_file() => Err(SourceFault::Io),
            Err(error) if error.kind() == ErrorKind::OutOfMemory => Err(SourceFault::OutOfMemory),
            _ => Ok(()),
        }
    }

    // Whether the path is the name that denotes standard input.
    fn is_input(&self, path: &str) -> bool
        ensures { IsTrue result ↔ (self.now.input_name ≡ Some path.now) }
    {
        match &self.input_name {
            Some(name) => name.as_str() == path,
            None => false,
        }
    }
}

impl<R: Files + Input + Drop> FileSource for DiskFiles<R> {
    ghost use Rattle.nj_disk.specs.Disk.{disk_state};

    ghost state = { disk_state };

    fn read(&mut self, alloc: Global, path: &str) -> Result<Option<Vec<u8>>, SourceFault> {
        let outcome = self.outcome(alloc, path);
        if let Err(SourceFault::Io) = outcome {
            self.failed = self.failed.saturating_add(1);
        }
        outcome
    }

    fn hash_keys(&self) -> HashKeys {
        self.keys
    }
}

/// All bytes that the reader still has. `stated` is how many it expects: a guess, which may be
/// too low or too high. More than a file may have, stated or read, and a failed read are `Io`.
fn read_whole<R: Read>(alloc: Global, reader: &mut R, stated: u64) -> Result<Vec<u8>, SourceFault>
    ensures bytes { IfOk result (λ bytes.
        Consumes (R.remaining reader.old) (R.remaining reader.new) bytes.items) }
    ensures end { OnOk result (IsAtEnd (R.remaining reader.new)) }
    ensures within { IfOk result (λ bytes. vec_len bytes ≤ MOST_BYTES) }
    ensures too_large { MOST_BYTES < stated → result ≡ Err SourceFault.Io }
{
    let mut bytes = capacity_for(alloc, stated)?;
    let mut filled = 0;
    'reads: for _ in 0..MOST_READS {
        let count = read_piece(reader, &mut bytes, filled)?;
        filled += count;
        if count == 0 {
            bytes.truncate(filled);
            return Ok(bytes);
        }
        if filled > MOST_BYTES {
            return Err(SourceFault::Io);
        }
    }
    Err(SourceFault::Io)
}

/// A buffer for as many bytes as the stated size of a file.
fn capacity_for(alloc: Global, stated: u64) -> Result<Vec<u8>, SourceFault>
    ensures empty { IfOk result (λ bytes. bytes.items ≡ []) }
    ensures too_large { MOST_BYTES < stated → result ≡ Err SourceFault.Io }
{
    let size = match usize::try_from(stated) {
        Ok(size) if size <= MOST_BYTES => size,
        _ => return Err(SourceFault::Io),
    };
    Ok(Vec::with_capacity(alloc, size)?)
}

/// Reads once, after the bytes that are filled, and returns how many were added; 0 is the end.
fn read_piece<R: Read>(
    reader: &mut R,
    bytes: &mut Vec<u8>,
    filled: usize,
) -> Result<usize, SourceFault>
    requires in_bytes { filled ≤ vec_len bytes.old }
    requires within { filled ≤ MOST_BYTES }
    ensures front { OnOk result (take filled bytes.new.items ≡ take filled bytes.old.items) }
    ensures fits { IfOk result (λ count. filled + count ≤ vec_len bytes.new) }
    ensures piece { IfOk result (λ count. Consumes (R.remaining reader.old)
        (R.remaining reader.new) (take count (drop filled bytes.new.items))) }
    ensures end { result ≡ Ok 0 → IsAtEnd (R.remaining reader.new) }
{
    if filled == bytes.len() {
        if filled == bytes.capacity() {
            return read_beyond(reader, bytes);
        }
        lengthen(bytes)?;
    }
    read_at(reader, bytes.as_mut_slice(), filled)
}

/// Reads once when the buffer is full. It grows only if there is more to read, so that a file of
/// its stated size needs just that many bytes.
fn read_beyond<R: Read>(reader: &mut R, bytes: &mut Vec<u8>) -> Result<usize, SourceFault>
    ensures front { OnOk result (take (vec_len bytes.old) bytes.new.items ≡ bytes.old.items) }
    ensures fits { IfOk result (λ count. vec_len bytes.old + count ≡ vec_len bytes.new) }
    ensures piece { OnOk result (Consumes (R.remaining reader.old)
        (R.remaining reader.new) (drop (vec_len bytes.old) bytes.new.items)) }
    ensures end { result ≡ Ok 0 → IsAtEnd (R.remaining reader.new) }
{
    let mut beyond = [0; BEYOND];
    let count = read_at(reader, &mut beyond, 0)?;
    if count > 0 {
        bytes.reserve(MORE_CAPACITY)?;
    }
    bytes.extend_from_slice(&beyond[..count])?;
    Ok(count)
}

/// Extends the bytes with zeros into the capacity that is left.
fn lengthen(bytes: &mut Vec<u8>) -> Result<(), SourceFault>
    requires { vec_len bytes.old < vec_capacity bytes.old }
    ensures front { OnOk result (take (vec_len bytes.old) bytes.new.items ≡ bytes.old.items) }
    ensures longer { OnOk result (vec_len bytes.old < vec_len bytes.new) }
{
    let spare = bytes.capacity() - bytes.len();
    bytes.resize(bytes.len() + spare.min(PIECE), 0)?;
    Ok(())
}

/// Reads once, into the bytes from this position on.
fn read_at<R: Read>(reader: &mut R, bytes: &mut [u8], position: usize) -> Result<usize, SourceFault>
    requires { position < length bytes.old }
    ensures front { take position bytes.new ≡ take position bytes.old }
    ensures fits { IfOk result (λ count. position + count ≤ length bytes.new) }
    ensures piece { IfOk result (λ count. Consumes (R.remaining reader.old)
        (R.remaining reader.new) (take count (drop position bytes.new))) }
    ensures end { result ≡ Ok 0 → IsAtEnd (R.remaining reader.new) }
{
    match reader.read(&mut bytes[position..]) {
        Ok(count) => Ok(count),
        Err(_) => Err(SourceFault::Io),
    }
}
