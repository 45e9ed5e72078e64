// Files and standard input, read whole, and why one cannot be.
ghost use Rattle.std.specs.Prelude.{IfOk, IfSome};
ghost use Rattle.io.specs.Counts.{IsPrefixLen as Front};

use crate::desk::Desk;
use crate::kind::{Kind, kind_of, path_of};
use crate::program::Program;
use std::fs::File;
use std::io::Result;
use std::rt::Files;

// Opens the file of this name and reads it, as far as the room goes.
fn read_named(rt: &impl Files, name: &[u8], room: &mut [u8]) -> Result<usize>
    ensures { IfOk result (λ count. Front count room.new) }
{
    let mut file = File::open(rt, path_of(name)?)?;
    report::read_seen(&mut file, room)
}

impl<R: Desk> Program<R> {
    // Reads the file of this name, as far as the room goes, and answers how many bytes stand at the front of it. If
    // that cannot be done, says why on standard error. FIFOs, devices, sockets and folders are not opened: they cannot
    // be read to an end.
    pub fn read_file(&self, name: &[u8], room: &mut [u8]) -> Option<usize>
        ensures { IfSome result (λ count. Front count room.new) }
    {
        match kind_of(&self.rt, name) {
            Kind::Folder => {
                self.say_folder(name);
                None
            }
            Kind::Other => {
                self.say_no_file(name);
                None
            }
            Kind::File | Kind::Unknown => match read_named(&self.rt, name, room) {
                Ok(count) => Some(count),
                Err(error) => {
                    self.say_why(name, error);
                    None
                }
            },
        }
    }

    // Reads the file that argument i names in the same way.
    pub fn read_argument(&self, i: usize, room: &mut [u8]) -> Option<usize>
        ensures { IfSome result (λ count. Front count room.new) }
    {
        let mut name = io::buffer();
        match self.rt.arg(i, &mut name) {
            Ok(n) => self.read_file(&name[..n], room),
            Err(_) => {
                self.too_long();
                None
            }
        }
    }

    // Reads the file that the argument names, or standard input where none is given, in the same way.
    pub fn read(&self, file: Option<usize>, room: &mut [u8]) -> Option<usize>
        ensures { IfSome result (λ count. Front count room.new) }
    {
        match file {
            Some(i) => self.read_argument(i, room),
            None => self.read_input(room),
        }
    }

    // Reads standard input in the same way.
    pub fn read_input(&self, room: &mut [u8]) -> Option<usize>
        ensures { IfSome result (λ count. Front count room.new) }
    {
        let mut input = self.rt.reader();
        match report::read_seen(&mut input, room) {
            Ok(count) => Some(count),
            Err(error) => {
                self.no_input(error);
                None
            }
        }
    }
}
