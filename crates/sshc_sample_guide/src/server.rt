//! What a real server does in the place of which this stands: it logs the user in, forwards a port, and has one
//! connection come to it.

use sshc_sample_fakes::{Coming, Server};
use sshc_wire::{Cursor, NoMemory, WireError};

/// A server that has a connection come to the port that it was asked to forward.
#[derive(Clone, Copy, PartialEq, Eq)]
pub struct Forwarding;

/// The connection of RFC 4254, section 7.2: to port 8080 of `localhost`, from port 50000 of `203.0.113.7`. Its number
/// is 7.
const CONNECTION: &[u8] =
    b"\x5a\0\0\0\x0fforwarded-tcpip\0\0\0\x07\0\0\x80\0\0\0\x80\0\0\0\0\x09localhost\0\0\x1f\x90\0\0\0\x0b203.0.113.7\
        \0\0\xc3\x50";

/// The number that the client gave the connection (RFC 4254, section 5.1).
fn number_of(confirmation: &[u8]) -> Result<u32, WireError> {
    let mut cursor = Cursor::new(confirmation);
    cursor.u8()?;
    cursor.u32()?;
    cursor.u32()
}

/// Bytes on the client's channel of this number.
fn knock(number: u32, coming: &mut Coming) -> Result<(), NoMemory> {
    let [a, b, c, d] = number.to_be_bytes();
    coming.packet(&[94, a, b, c, d, 0, 0, 0, 5, b'k', b'n', b'o', b'c', b'k'])?;
    coming.packet(&[96, a, b, c, d])?;
    coming.packet(&[97, a, b, c, d])
}

impl Server for Forwarding {
    fn hear(&mut self, packet: &[u8], coming: &mut Coming) -> Result<(), NoMemory> {
        match packet.first() {
            Some(1) => {
                coming.end();
                Ok(())
            }
            Some(5) => coming.packet(b"\x06\0\0\0\x0cssh-userauth"),
            Some(50) => coming.packet(b"\x34"),
            Some(80) => {
                coming.packet(b"\x51")?;
                coming.packet(CONNECTION)
            }
            Some(91) => match number_of(packet) {
                Ok(number) => knock(number, coming),
                Err(_) => Ok(()),
            },
            _ => Ok(()),
        }
    }

    fn exchange(&mut self, coming: &mut Coming) -> Result<(), NoMemory> {
        coming.end();
        Ok(())
    }
}
