// A file that is written whole, or not at all.
use std::{fs, io};

// Writes a file beside the path, and then gives it that name: what stood under the path before stays until all is written. What is no file, as a
// device or a pipe, is written to as it stands, since nothing may take its place.
pub fn write_whole(rt: &HostRuntime, path: &str, bytes: &[u8]) -> io::Result<()> {
    if is_other(rt, path) {
        return fs::write(rt, path, bytes);
    }
    let mut beside = String::from_str(rt.alloc(), path)?;
    beside.push_str(".part")?;
    let result = write_then_rename(rt, beside.as_str(), path, bytes);
    if result.is_err() {
        let _ = fs::remove_file(rt, beside.as_str());
    }
    result
}

// Whether something stands under the path that is no file. Of a link it is what it leads to.
fn is_other(rt: &HostRuntime, path: &str) -> bool {
    fs::metadata(rt, path).is_ok_and(|found| !found.is_file())
}

fn write_then_rename(rt: &HostRuntime, beside: &str, path: &str, bytes: &[u8]) -> io::Result<()> {
    fs::write(rt, beside, bytes)?;
    fs::rename(rt, beside, path)
}
