// Laws of containers.
ghost use Rattle.std.specs.Prelude.{◌≡◌, ℕ, ◌+◌, ◌<◌, ◌≤◌, List, [], ◌++◌, length};
ghost use Rattle.std.specs.List.{All};
ghost use Rattle.container_file.specs.declared.container_end.ContainerEnd.{ContainerEnd};
ghost use Rattle.container_file.specs.Chunk.{Chunk, IsChunk};
ghost use Rattle.container_file.specs.Text.{container_text, IsContainer};
ghost use Rattle.container_file.specs.Scanned.{records_of};
ghost use Rattle.container_file.specs.Layout.{put_to};
ghost use Rattle.container_file.specs.Containers.{id_of, chunks_in, records_in};

/// What is laid out is a container, and [`scan`](crate::scan) finds its chunks at the places that
/// [`plan`](crate::plan) gave them. It runs nothing.
pub fn scan_of_a_layout()
    // A put that starts a container is its text.
    ensures started { (end : ContainerEnd) (room : ℕ) (chunks : List Chunk) (o : ℕ) → All IsChunk chunks →
        end.containers ≤ o →
        IsContainer (id_of end o) (chunks_in end room chunks o) (put_to end room chunks o).bytes }
    ensures started_places { (end : ContainerEnd) (room : ℕ) (chunks : List Chunk) (o : ℕ) →
        end.containers ≤ o → records_of (chunks_in end room chunks o) ≡ records_in end room chunks o }
    // A put to the last container goes on with its text.
    ensures last { (end : ContainerEnd) (room : ℕ) (chunks old : List Chunk) (o : ℕ) → All IsChunk chunks →
        end.containers ≡ o + 1 → (text : List ℕ) → IsContainer (id_of end o) old text →
        IsContainer (id_of end o) (old ++ chunks_in end room chunks o) (text ++ (put_to end room chunks o).bytes) }
    ensures last_places { (end : ContainerEnd) (room : ℕ) (chunks old : List Chunk) (o : ℕ) →
        end.containers ≡ o + 1 → All IsChunk old → end.used ≡ length (container_text (id_of end o) old) →
        records_of (old ++ chunks_in end room chunks o) ≡ records_of old ++ records_in end room chunks o }
    // Nothing goes to the containers before the last one.
    ensures others { (end : ContainerEnd) (room : ℕ) (chunks : List Chunk) (o : ℕ) →
        o + 1 < end.containers → chunks_in end room chunks o ≡ [] }
{}
