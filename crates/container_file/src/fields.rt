// The fields of a container's text.
ghost use Rattle.std.specs.Prelude.{◌≡◌, ◌≢◌, ◌++◌, length, OnOk, IfSome, IfNone};
ghost use Rattle.std.specs.Int.{w32, to_be_bytes};
ghost use Rattle.ss_base.specs.declared.ids.ContainerId.{ContainerId};
ghost use Rattle.container_file.specs.Chunk.{Chunk, IsChunk, the_chunk};
ghost use Rattle.container_file.specs.Text.{header, record_text, HasNoRecord};

use ss_base::{
    ContainerId, MAX_CHUNK_LEN, Memory, Piece, read_fields, read_name, read_number, write_name,
    write_number,
};

const MAGIC: [u8; 4] = *b"SSC1";

pub const HEADER: u32 = 16;

pub const RECORD: u32 = 36;

pub fn write_header(out: &mut Vec<u8>, id: ContainerId) -> Result<(), Memory>
    ensures { OnOk result (out.new.items ≡ out.old.items ++ header id) }
{
    out.extend_from_slice(MAGIC.as_slice())?;
    write_number(out, id.session)?;
    write_number(out, id.ordinal)?;
    write_number(out, 0)?;
    Ok(())
}

pub fn write_record(out: &mut Vec<u8>, piece: Piece, chunk: &[u8]) -> Result<(), Memory>
    ensures { OnOk result (out.new.items ≡ out.old.items ++ record_text (the_chunk piece chunk.now)) }
{
    write_number(out, piece.len)?;
    write_name(out, piece.name)?;
    out.extend_from_slice(chunk)?;
    Ok(())
}

/// The id in this header. `None` comes exactly where it is none.
pub fn read_header(text: &[u8]) -> Option<ContainerId>
    requires { length text.now ≡ 16 }
    ensures found { IfSome result (λ id. header id ≡ text.now) }
    ensures none { IfNone result ((id : ContainerId) → header id ≢ text.now) }
{
    read_fields!(text;
        magic: read_number of 4,
        session: read_number of 4,
        ordinal: read_number of 4,
        zero: read_number of 4,
    );
    if magic != u32::from_be_bytes(MAGIC) || zero != 0 {
        return None;
    }
    Some(ContainerId { session, ordinal })
}

/// The piece and the bytes of the chunk whose record begins the text, and what follows. `None` comes exactly where no
/// record begins it.
pub fn read_record(text: &[u8]) -> Option<(Piece, &[u8], &[u8])>
    ensures chunk { IfSome result (λ found. IsChunk (the_chunk found.0 found.1.now)) }
    ensures found { IfSome result (λ found. record_text (the_chunk found.0 found.1.now) ++ found.2.now ≡ text.now) }
    ensures none { IfNone result (HasNoRecord text.now) }
{
    if text.len() < RECORD as usize {
        return None;
    }
    let (head, rest) = text.split_at(RECORD as usize);
    let piece = read_piece(head);
    if piece.len < 1 || piece.len > MAX_CHUNK_LEN || rest.len() < piece.len as usize {
        return None;
    }
    let (chunk, rest) = rest.split_at(piece.len as usize);
    Some((piece, chunk, rest))
}

fn read_piece(text: &[u8]) -> Piece
    requires { length text.now ≡ 36 }
    ensures text { to_be_bytes w32 result.len ++ result.name.0 ≡ text.now }
    ensures name { length result.name.0 ≡ 32 }
{
    read_fields!(text;
        len: read_number of 4,
        name: read_name of 32,
    );
    Piece { name, len }
}
