//! Files in memory.
ghost use Rattle.std.specs.Prelude.{◌≡◌, [], ◌-◌, ◌^◌, ◌<◌, ◌≤◌, ◌↔◌, Some, None, MatchOption, length, drop, map, false, IsNone, OnErr, IsTrue};
ghost use Rattle.hz_io.specs.Files.{LacksOnErr, Reads};
ghost use Rattle.hz_io.specs.Drive.{entries_of, bytes_of, are_distinct, fresh_drive, IsSteady, is_to_fail, counted, OpensFile, ReadsFile};
ghost use Rattle.hz_io.specs.Cursors.{IsFoundAt};

use super::faults::Failed;
use super::input::Files;
use super::names::FileName;
use std::marker::Model;

/// Where reading goes on: a place in the list of files, and how many bytes of that file are read.
#[derive(Clone, Copy, Debug)]
struct Cursor {
    file: usize,
    read: usize,
}

/// Files in memory, some of whose calls fail by their number. Contracts see them as a `Drive`.
#[derive(Debug, Drop)]
pub struct MemFiles {
    files: Vec<(FileName, Vec<u8>)>,
    fail: Vec<u64>,
    next: u64,
    most: usize,
    cursor: Option<Cursor>,
    faults: u64,
}

impl Model for MemFiles {
    ghost use Rattle.hz_io.specs.Drive.{Drive, entries_of};
    ghost use Rattle.hz_io.specs.Cursors.{unread_of, IsSound};

    ghost Value = { Drive };

    ghost view = { λ inside.
        let files = entries_of inside.files.items in
        record {
          files = files;
          fail = inside.fail.items;
          next = inside.next;
          most = inside.most;
          rest = unread_of files inside.cursor;
          faults = inside.faults;
        } };

    ghost invariant = { λ inside. IsSound (entries_of inside.files.items) inside.most inside.cursor };
}

impl MemFiles {
    /// These files, of which a read gives at most `most` bytes. Opens and reads are numbered together from 0, and
    /// those whose numbers are in `fail` fail; all calls after number 2^64 - 1 have that number too.
    pub fn new(files: Vec<(FileName, Vec<u8>)>, fail: Vec<u64>, most: usize) -> MemFiles
        requires most { 0 < most }
        requires distinct { IsTrue (are_distinct (map (λ file. file.0) files.items)) }
        ensures drive { result ≡ fresh_drive (entries_of files.items) fail.items most }
        ensures held { ⟦<MemFiles as Files>⟧.held result ≡ Some (bytes_of (entries_of files.items)) }
        ensures rest { ⟦<MemFiles as Files>⟧.rest result ≡ Some [] }
        ensures steady { ⟦<MemFiles as Files>⟧.steady result ↔ IsSteady fail.items 0 }
        ensures faults { ⟦<MemFiles as Files>⟧.faults result ≡ 0 }
    {
        MemFiles {
            files,
            fail,
            next: 0,
            most,
            cursor: None,
            faults: 0,
        }
    }

    /// Counts this call, and answers whether it is to fail.
    fn count_call(&mut self) -> bool
        ensures answer { result ≡ is_to_fail self.old }
        ensures after { self.new ≡ counted self.old }
        ensures steady { IsSteady self.old.fail self.old.next → IsSteady self.new.fail self.new.next }
        ensures turn { IsSteady self.old.fail self.old.next → result ≡ false }
    {
        let fails = self.fail.contains(&self.next);
        self.next = self.next.saturating_add(1);
        fails
    }

    /// What is unread of the open file.
    fn unread(&self) -> &[u8]
        ensures { result.now ≡ self.now.rest }
    {
        match &self.cursor {
            Some(cursor) => &self.files[cursor.file].1[cursor.read..],
            None => &[],
        }
    }

    /// Takes bytes from the front of what is unread.
    fn skip(&mut self, count: usize)
        requires { count ≤ length self.old.rest }
        ensures { self.new ≡ record self.old { rest = drop count self.old.rest } }
    {
        if let Some(cursor) = &mut self.cursor {
            cursor.read += count;
        }
    }
}

/// The place of the file of that name.
fn place_of(files: &[(FileName, Vec<u8>)], name: &[u8]) -> Option<usize>
    ensures { MatchOption result (bytes_of (entries_of files.now) name.now ≡ None) (IsFoundAt (entries_of files.now) name.now) }
{
    for (place, file) in files.iter().enumerate() {
        if name == file.0.bytes() {
            return Some(place);
        }
    }
    None
}

impl Files for MemFiles {
    ghost held = { λ drive. Some (bytes_of drive.files) };

    ghost rest = { λ drive. Some drive.rest };

    ghost steady = { λ drive. IsSteady drive.fail drive.next };

    ghost faults = { λ drive. drive.faults };

    /// Opens the file, where the call isn't to fail and the file is there.
    fn open(&mut self, name: &str) -> Result<(), Failed>
        requires { self.old.faults < 2 ^ 64 - 1 }
        ensures steady { IsSteady self.old.fail self.old.next → IsSteady self.new.fail self.new.next }
        ensures lacks { IsSteady self.old.fail self.old.next → LacksOnErr (Some (bytes_of self.old.files)) name.now result }
        ensures opens { OpensFile self.old self.new name.now result }
    {
        if self.count_call() {
            self.faults += 1;
            return Err(Failed);
        }
        match place_of(self.files.as_slice(), name.as_bytes()) {
            Some(file) => {
                self.cursor = Some(Cursor { file, read: 0 });
                Ok(())
            }
            None => {
                self.faults += 1;
                Err(Failed)
            }
        }
    }

    /// Reads as many bytes as there are unread and fit into `into`, but at most `most`, where the call isn't to fail.
    fn read(&mut self, into: &mut [u8]) -> Result<usize, Failed>
        requires below { self.old.faults < 2 ^ 64 - 1 }
        requires room { 0 < length into.old }
        ensures steady { IsSteady self.old.fail self.old.next → IsSteady self.new.fail self.new.next }
        ensures reads { Reads (Some self.old.rest) (Some self.new.rest) into.old into.new result }
        ensures succeeds { IsSteady self.old.fail self.old.next → OnErr result (IsNone (Some (bytes_of self.old.files))) }
        ensures gives { ReadsFile self.old self.new into.old into.new result }
    {
        if self.count_call() {
            self.faults += 1;
            return Err(Failed);
        }
        let unread = self.unread();
        let count = self.most.min(into.len()).min(unread.len());
        into[..count].copy_from_slice(&unread[..count]);
        self.skip(count);
        Ok(count)
    }
}
