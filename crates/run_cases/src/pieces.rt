// What the pieces of a row stand for, put into a lent buffer, so that no memory can run out. What does not fit is left out: no row has so
// much.
use cases::Piece;
use wire::bytes_in;

// Their bytes: the part of the buffer that they fill.
pub fn bytes_of<'a>(buffer: &'a mut [u8], pieces: &[Piece]) -> &'a [u8] {
    let mut n = 0;
    for piece in pieces {
        let number = piece.value.to_be_bytes();
        for _ in 0..piece.times {
            for &byte in &number[8 - bytes_in(piece.width)..] {
                if n < buffer.len() {
                    buffer[n] = byte;
                    n += 1;
                }
            }
        }
    }
    &buffer[..n.min(buffer.len())]
}

// Their numbers: the part of the buffer that they fill.
pub fn numbers_of<'a>(buffer: &'a mut [u64], pieces: &[Piece]) -> &'a [u64] {
    let mut n = 0;
    for piece in pieces {
        for _ in 0..piece.times {
            if n < buffer.len() {
                buffer[n] = piece.value;
                n += 1;
            }
        }
    }
    &buffer[..n.min(buffer.len())]
}
