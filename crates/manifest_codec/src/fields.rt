// The fields of a manifest's text, which all have a fixed size.
ghost use Rattle.std.specs.Prelude.{◌≡◌, ℕ, ◌++◌, length, OnOk};
ghost use Rattle.std.specs.Int.{w32, to_be_bytes};
ghost use Rattle.manifest_codec.specs.PiecesPart.{piece_text};
ghost use Rattle.manifest_codec.specs.Text.{place_text, IsPlace};

use ss_base::{
    ContainerId, Memory, Piece, Place, read_fields, read_name, read_number, write_name,
    write_number,
};

/// The piece that has this text.
pub fn read_piece(text: &[u8]) -> Piece
    requires { length text.now ≡ 36 }
    ensures text { piece_text result ≡ text.now }
    ensures name { length result.name.0 ≡ 32 }
{
    read_fields!(text;
        name: read_name of 32,
        len: read_number of 4,
    );
    Piece { name, len }
}

pub fn write_piece(out: &mut Vec<u8>, piece: Piece) -> Result<(), Memory>
    ensures text { OnOk result (out.new.items ≡ out.old.items ++ piece_text piece) }
    ensures name { length piece.name.0 ≡ 32 }
{
    write_name(out, piece.name)?;
    write_number(out, piece.len)?;
    Ok(())
}

/// The place that has this text.
pub fn read_place(text: &[u8]) -> Place
    requires { length text.now ≡ 12 }
    ensures text { place_text result ≡ text.now }
    ensures numbers { IsPlace result }
{
    read_fields!(text;
        session: read_number of 4,
        ordinal: read_number of 4,
        offset: read_number of 4,
    );
    Place {
        container: ContainerId { session, ordinal },
        offset,
    }
}

pub fn write_place(out: &mut Vec<u8>, place: Place) -> Result<(), Memory>
    ensures text { OnOk result (out.new.items ≡ out.old.items ++ place_text place) }
    ensures numbers { IsPlace place }
{
    write_number(out, place.container.session)?;
    write_number(out, place.container.ordinal)?;
    write_number(out, place.offset)?;
    Ok(())
}
