// Standard input, read into a lent buffer.
#![tactic(auto)]

ghost use Rattle.std.specs.Counts.{IsPrefixLen};
ghost use Rattle.standard_input.specs.Input.{ReadInto};

use std::io::{Read, Stdin};

// How many bytes stand in the buffer now; or the input cannot be read, as a directory or a closed one, which is no empty input.
#[derive(Clone, Copy)]
pub enum Input {
    Bytes(usize),
    Unreadable,
}

// Reads until the buffer is full or the input ends, and says how many bytes stand in it. A read that fails ends the input too.
pub fn read_full(mut stdin: Stdin, buffer: &mut [u8]) -> usize
    ensures { IsPrefixLen result buffer.new }
{
    let mut done = 0;
    while done < buffer.len() {
        let Ok(n) = stdin.read(&mut buffer[done..]) else {
            break;
        };
        if n == 0 {
            break;
        }
        done += n;
    }
    done
}

// Reads until the buffer is full or the input ends. Only a first read that fails is told apart: a later one ends the input.
pub fn read(mut stdin: Stdin, buffer: &mut [u8]) -> Input
    ensures { ReadInto result buffer.new }
{
    let Ok(n) = stdin.read(buffer) else {
        return Input::Unreadable;
    };
    let more = read_full(stdin, &mut buffer[n..]);
    Input::Bytes(n + more)
}
