// The paths of files, from the folder and their names.
ghost use Rattle.std.specs.Prelude.{◌≡◌, IfOk, string_bytes};
ghost use Rattle.std.specs.Option.{option_map};
ghost use Rattle.outside.specs.DirShelf.{leads_out, file_path};

use ss_base::Memory;

// The path of the file of this name: the folder, `/` and the name. A name that has `..` among its parts has none.
pub(crate) fn path_of(folder: &String, name: &str) -> Result<Option<String>, Memory>
    ensures { IfOk result (λ path. option_map string_bytes path ≡ file_path (string_bytes folder.now) name.now) }
{
    if leads_out(name) {
        return Ok(None);
    }
    let mut path = folder.clone()?;
    path.push('/')?;
    path.push_str(name)?;
    Ok(Some(path))
}

// Whether `..` is among the parts of the name.
fn leads_out(name: &str) -> bool
    ensures { result ≡ leads_out name.now }
{
    name.as_bytes()
        .split(|b| *b == b'/')
        .any(|part| part == b"..".as_slice())
}

// What a path begins with, up to its last slash.
pub(crate) fn folder_of(path: &str) -> &str {
    let last = path.as_bytes().iter().rev().take_while(|b| **b != b'/');
    path.get(..path.len().saturating_sub(last.count()))
        .unwrap_or(path)
}

// Whether a path is that of an open file but for empty parts and parts `.`. One that ends in such a part names no file.
pub(crate) fn is_same_file(open: &str, path: &str) -> bool {
    let parts = open.split('/').filter(|part| leads_on(part));
    let same = parts.eq(path.split('/').filter(|part| leads_on(part)));
    same && !path.ends_with('/') && !path.ends_with("/.")
}

// Whether a part of a path leads to another file than the path before it.
fn leads_on(part: &str) -> bool {
    !part.is_empty() && part != "."
}
