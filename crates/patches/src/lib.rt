//! Patches: bytes to be laid over a value at an offset.
#![tactic(auto)]

ghost use Rattle.std.specs.Prelude.{◌≡◌, ◌+◌, ◌<◌, ◌≤◌, max, length, take, is_ok, if◌then◌else◌, None, Err, nat_le};
ghost use Rattle.ranges.specs.Ranges.{in_u64};
ghost use Rattle.ranges.specs.Refusals.{told, unless, room};
ghost use Rattle.ranges.specs.Buffers.{fronted};
ghost use Rattle.patches.specs.Patches.{patch_refusal, laid, patch_bytes, laid_all, patched_length, places_inside, patches_no, lay_no, in_place_no};

/// The most patches that one call takes.
pub const MAX_PATCHES: usize = 64;

/// A patch: an offset, and the place of its bytes in a slice passed beside it.
#[derive(Clone, Copy, PartialEq, Eq)]
pub struct Patch {
    pub offset: u64,
    pub start: usize,
    pub len: usize,
}

impl Patch {
    // Whether the place lies inside a slice of `n` bytes.
    fn lies_in(&self, n: usize) -> bool
        ensures { result ≡ nat_le (self.now.start + self.now.len) n }
    {
        self.start <= n && self.len <= n - self.start
    }
}

/// Why patches are refused.
#[derive(Clone, Copy, PartialEq, Eq)]
pub enum PatchError {
    /// More than 64 patches.
    TooMany,
    /// The first patch whose place is not inside the slice, by its index.
    Place(usize),
    /// The buffer is shorter than the patched value.
    Short,
}

impl PatchError {
    /// The number of this refusal.
    pub fn number(&self) -> u8
        ensures { result ≡ (patch_refusal self.now).number }
    {
        match self {
            PatchError::TooMany | PatchError::Place(_) => 6,
            PatchError::Short => 9,
        }
    }
}

/// Whether there are at most 64 patches, each with its place inside the slice.
pub fn check_patches(patches: &[Patch], source: &[u8]) -> Result<(), PatchError>
    ensures answer { told patch_refusal result ≡ unless (patches_no (length source.now) patches.now) tt }
    ensures many { 64 < length patches.now → result ≡ Err PatchError.TooMany }
{
    if patches.len() > MAX_PATCHES {
        return Err(PatchError::TooMany);
    }
    check_places(patches, source.len())
}

// Is each place inside a slice of `n` bytes?
fn check_places(patches: &[Patch], n: usize) -> Result<(), PatchError>
    ensures { told patch_refusal result ≡ unless (places_inside n 0 patches.now) tt }
{
    for (i, patch) in patches.iter().enumerate() {
        if !patch.lies_in(n) {
            return Err(PatchError::Place(i));
        }
    }
    Ok(())
}

/// How long `old_len` bytes are once the patches are laid; none where that leaves `u64`.
pub fn patched_len(old_len: u64, patches: &[Patch]) -> Option<u64>
    ensures { result ≡ in_u64 (patched_length old_len patches.now) }
{
    let mut n = old_len;
    for patch in patches {
        let end = patch.offset.checked_add(patch.len as u64)?;
        n = n.max(end);
    }
    Some(n)
}

/// Lays the patches in turn on the old bytes, in the work buffer, and returns how many bytes there are then.
pub fn lay_patches(
    old: &[u8],
    patches: &[Patch],
    source: &[u8],
    work: &mut [u8],
) -> Result<usize, PatchError>
    ensures answer { told patch_refusal result ≡ unless (lay_no source.now patches.now old.now (length work.old)) (length (laid_all source.now patches.now old.now)) }
    ensures work { work.new ≡ (if is_ok result then fronted (laid_all source.now patches.now old.now) work.old else work.old) }
{
    check_lay(old, patches, source, work.len())?;
    Ok(lay_on_copy(old, patches, source, work))
}

/// Lays the patches in turn on the first `old_len` bytes of the work buffer, and returns how many bytes there are then.
pub fn lay_patches_in_place(
    old_len: usize,
    patches: &[Patch],
    source: &[u8],
    work: &mut [u8],
) -> Result<usize, PatchError>
    ensures answer { told patch_refusal result ≡ unless (in_place_no source.now patches.now old_len (length work.old)) (length (laid_all source.now patches.now (take old_len work.old))) }
    ensures work { work.new ≡ (if is_ok result then fronted (laid_all source.now patches.now (take old_len work.old)) work.old else work.old) }
{
    check_in_place(old_len as u64, patches, source, work.len())?;
    Ok(lay_all(old_len, patches, source, work))
}

// The questions before patches are laid on the old bytes.
fn check_lay(old: &[u8], patches: &[Patch], source: &[u8], space: usize) -> Result<(), PatchError>
    ensures { told patch_refusal result ≡ unless (lay_no source.now patches.now old.now space) tt }
{
    check_in_place(old.len() as u64, patches, source, space)
}

/// The questions before patches are laid on `old_len` bytes in a buffer of `space` bytes.
pub fn check_in_place(
    old_len: u64,
    patches: &[Patch],
    source: &[u8],
    space: usize,
) -> Result<(), PatchError>
    ensures { told patch_refusal result ≡ unless (in_place_no source.now patches.now old_len space) tt }
{
    check_patches(patches, source)?;
    check_room(old_len, patches, space)
}

/// Is there room in `space` bytes for `old_len` bytes once the patches are laid on them?
pub fn check_room(old_len: u64, patches: &[Patch], space: usize) -> Result<(), PatchError>
    ensures { told patch_refusal result ≡ unless (room space (patched_length old_len patches.now)) tt }
{
    match patched_len(old_len, patches) {
        Some(n) if n <= space as u64 => Ok(()),
        _ => Err(PatchError::Short),
    }
}

// Lays the patches in turn on a copy of the old bytes at the front of the work buffer.
fn lay_on_copy(old: &[u8], patches: &[Patch], source: &[u8], work: &mut [u8]) -> usize
    requires { lay_no source.now patches.now old.now (length work.old) ≡ None }
    ensures len { result ≡ length (laid_all source.now patches.now old.now) }
    ensures work { work.new ≡ fronted (laid_all source.now patches.now old.now) work.old }
{
    let n = old.len();
    work[0..n].copy_from_slice(old);
    lay_all(n, patches, source, work)
}

// Lays the patches in turn on the first `old_len` bytes.
fn lay_all(old_len: usize, patches: &[Patch], source: &[u8], work: &mut [u8]) -> usize
    requires places { places_inside (length source.now) 0 patches.now ≡ None }
    requires space { patched_length old_len patches.now ≤ length work.old }
    ensures len { result ≡ length (laid_all source.now patches.now (take old_len work.old)) }
    ensures work { work.new ≡ fronted (laid_all source.now patches.now (take old_len work.old)) work.old }
{
    let mut n = old_len;
    for patch in patches {
        n = lay_patch(n, *patch, source, work);
    }
    n
}

// Lays one patch on the first `n` bytes.
fn lay_patch(n: usize, patch: Patch, source: &[u8], work: &mut [u8]) -> usize
    requires place { patch.start + patch.len ≤ length source.now }
    requires old { n ≤ length work.old }
    requires space { patch.offset + patch.len ≤ length work.old }
    ensures len { result ≡ max n (patch.offset + patch.len) }
    ensures work { work.new ≡ fronted (laid patch.offset (patch_bytes source.now patch) (take n work.old)) work.old }
{
    let start = patch.start;
    let end = start + patch.len;
    lay(n, patch.offset as usize, &source[start..end], work)
}

// Lays bytes at an offset on the first `n` bytes: zeros up to the offset, then the bytes.
fn lay(n: usize, at: usize, part: &[u8], work: &mut [u8]) -> usize
    requires old { n ≤ length work.old }
    requires space { at + length part.now ≤ length work.old }
    ensures len { result ≡ max n (at + length part.now) }
    ensures work { work.new ≡ fronted (laid at part.now (take n work.old)) work.old }
{
    let end = at + part.len();
    if n < at {
        work[n..at].fill(0);
    }
    work[at..end].copy_from_slice(part);
    n.max(end)
}
