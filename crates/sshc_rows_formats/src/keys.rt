//! Keys, signatures and key pairs that other tools made: they are read and written back, and what is outside the
//! grammar is refused. Then the readers are compared with a plain one, on random bytes and on damaged keys.

mod blobs;
mod damage;
mod plain;
mod random;
mod refusals;
mod vector;

use damage::{damaged_agree, random_agree};
use std::alloc::Global;
use vector::{Vector, blob_of, vector_of};

/// How many blobs each comparison judges.
const ROUNDS: u32 = 1000;

/// Whether the blob behaves as the vector says.
fn is_right(alloc: Global, vector: &Vector<'_>, blob: &[u8]) -> bool {
    match vector.kind {
        "key" => blobs::is_key(alloc, blob, vector.base64, false),
        "certificate" => blobs::is_key(alloc, blob, vector.base64, true),
        "signature" => blobs::is_signature(alloc, blob),
        "pair" => blobs::is_pair(alloc, blob),
        "longer" => blobs::is_longer(alloc, blob),
        "no-key" => refusals::is_no_key(alloc, vector),
        "no-pair" => refusals::is_no_pair(alloc, vector, blob),
        "no-signature" => refusals::is_no_signature(alloc, vector, blob),
        _ => false,
    }
}

/// What is printed of a blob that behaves as the vector says.
fn output(alloc: Global, vector: &Vector<'_>, blob: &[u8]) -> anyhow::Result<String> {
    match vector.kind {
        "key" | "certificate" => {
            let shape = blobs::shape_of(alloc, blob)?;
            blobs::read_and_written(alloc, shape.as_str(), blob)
        }
        "signature" | "pair" => blobs::read_and_written(alloc, "", blob),
        "longer" => blobs::front_is_key(alloc, blob),
        _ => Ok(String::from_str(alloc, vector.error)?),
    }
}

/// Prints what came of a vector.
fn print_vector(rt: &HostRuntime, vector: &Vector<'_>) -> anyhow::Result<()> {
    let alloc = rt.alloc();
    let blob = blob_of(alloc, vector.base64)?;
    let output = if is_right(alloc, vector, &blob) {
        output(alloc, vector, &blob)?
    } else {
        String::from_str(alloc, "WRONG")?
    };
    println!(rt; "{} {}: {output}", vector.kind, vector.name)?;
    Ok(())
}

/// The blobs of the keys and certificates in the text.
fn keys_in(alloc: Global, text: &str) -> anyhow::Result<Vec<Vec<u8>>> {
    let mut keys = Vec::new(alloc);
    for line in text.lines() {
        match vector_of(line) {
            Some(vector) if vector.kind == "key" || vector.kind == "certificate" => {
                keys.push(blob_of(alloc, vector.base64)?)?
            }
            _ => {}
        }
    }
    Ok(keys)
}

/// Prints what came of each vector in the text, and of the comparisons.
pub fn print_rows(rt: &HostRuntime, text: &str) -> anyhow::Result<()> {
    for line in text.lines() {
        if let Some(vector) = vector_of(line) {
            print_vector(rt, &vector)?;
        }
    }
    let random = random_agree(rt.alloc(), ROUNDS)?;
    println!(rt; "random blobs: {random}")?;
    let keys = keys_in(rt.alloc(), text)?;
    let damaged = damaged_agree(rt.alloc(), &keys, ROUNDS)?;
    println!(rt; "damaged keys: {damaged}")?;
    Ok(())
}
