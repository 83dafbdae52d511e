//! The single system calls that a disk over two files is made of. Their contracts say what each does to a folder that
//! holds the two; nothing but these is assumed of a system.
ghost use Rattle.std.specs.Prelude.{◌≡◌, ◌+◌, ◌<◌, ◌≤◌, ℕ, List, [], Bool, true, false, Option, length, take, slice_range, IfOk, OnOk, OnErr, None};
ghost use Rattle.st_disk.specs.Crash.{IsCrashImage, writes_of, other, overwritten};
ghost use Rattle.st_disk.specs.Moments.{Moments, now, after_write, after_cut, after_sync, Passes, MayPass};
ghost use Rattle.st_disk.specs.Folder.{Stays, StaysAt};
ghost use Rattle.st_disk.specs.declared.which.Which.{Which as Side};

use crate::Which;
use std::io;

pub trait Folder {
    /// A handle to one of the two files.
    type File: Drop;

    /// The calls keep their contracts. They do so always or never, so no call has to keep it.
    ghost honest: { Type 0 };

    /// The bytes of a side's file, none where it is missing.
    ghost held: { Self → Side → List ℕ };

    /// What a crash may leave, now and at every moment so far.
    ghost moments: { Self → Moments };

    /// The side has no file.
    ghost missing: { Self → Side → Bool };

    /// A crash leaves the side's file under its name.
    ghost durable: { Self → Side → Bool };

    /// No write, cut or sync of the side has failed, and no sync of the folder. After one that did, a sync may answer Ok
    /// and do nothing.
    ghost sound: { Self → Side → Bool };

    /// The side whose file the handle is of.
    ghost side_of: { Self.File → Side };

    /// Opens a side's file where there is one.
    fn find(&mut self, side: Which) -> io::Result<Option<Self::File>>
        ensures found { honest → IfOk result (λ found. (file : Self.File) → found ≡ Some file → side_of file ≡ side) }
        ensures none { honest → IfOk result (λ found. found ≡ None → missing self.new side ≡ true) }
        ensures held { honest → held self.new ≡ held self.old }
        ensures moments { honest → moments self.new ≡ moments self.old }
        ensures missing { honest → Stays (missing self.old) (missing self.new) }
        ensures durable { honest → Stays (durable self.old) (durable self.new) }
        ensures sound { honest → Stays (sound self.old) (sound self.new) };

    /// Makes a missing file, and fails where one stands at the name by now. A crash may leave it, empty, or not.
    fn create(&mut self, side: Which) -> io::Result<Self::File>
        requires { honest → missing self.old side ≡ true }
        ensures made { honest → IfOk result (λ file. side_of file ≡ side) }
        ensures held { honest → held self.new ≡ held self.old }
        ensures moments { honest → moments self.new ≡ moments self.old }
        ensures missing { honest → StaysAt (other side) (missing self.old) (missing self.new) }
        ensures durable { honest → StaysAt (other side) (durable self.old) (durable self.new) }
        ensures sound { honest → Stays (sound self.old) (sound self.new) };

    /// The length of a file in bytes.
    fn len(&mut self, file: &Self::File) -> io::Result<usize>
        ensures len { honest → IfOk result (λ n. n ≡ length (held self.old (side_of file.now))) }
        ensures held { honest → held self.new ≡ held self.old }
        ensures moments { honest → moments self.new ≡ moments self.old }
        ensures missing { honest → Stays (missing self.old) (missing self.new) }
        ensures durable { honest → Stays (durable self.old) (durable self.new) }
        ensures sound { honest → Stays (sound self.old) (sound self.new) };

    /// Reads from a place on, and says how many bytes it read. Nothing is said of the bytes where it read too few.
    fn read_at(&mut self, file: &Self::File, buf: &mut [u8], at: usize) -> io::Result<usize>
        requires { honest → at + length buf.old ≤ length (held self.old (side_of file.now)) }
        ensures bytes { honest → IfOk result (λ n. n ≡ length buf.old →
            buf.new ≡ slice_range (held self.old (side_of file.now)) at (at + length buf.old)) }
        ensures held { honest → held self.new ≡ held self.old }
        ensures moments { honest → moments self.new ≡ moments self.old }
        ensures missing { honest → Stays (missing self.old) (missing self.new) }
        ensures durable { honest → Stays (durable self.old) (durable self.new) }
        ensures sound { honest → Stays (sound self.old) (sound self.new) };

    /// Writes from a place on, and says how many bytes it wrote. Where it wrote too few, or failed, the whole range is
    /// open to a crash and nothing is said of what a read gives there.
    fn write_at(&mut self, file: &Self::File, bytes: &[u8], at: usize) -> io::Result<usize>
        requires { honest → at ≤ length (held self.old (side_of file.now)) }
        ensures written { honest → IfOk result (λ n. n ≡ length bytes.now →
            held self.new (side_of file.now) ≡ overwritten (held self.old (side_of file.now)) at bytes.now) }
        ensures other { honest →
            held self.new (other (side_of file.now)) ≡ held self.old (other (side_of file.now)) }
        ensures passes { honest → IfOk result (λ n. n ≡ length bytes.now → Passes
            (after_write (side_of file.now) at (length bytes.now) (moments self.old))
            (moments self.old) (moments self.new)) }
        ensures moments { honest → MayPass
            (after_write (side_of file.now) at (length bytes.now) (moments self.old))
            (moments self.old) (moments self.new) }
        ensures missing { honest → Stays (missing self.old) (missing self.new) }
        ensures durable { honest → Stays (durable self.old) (durable self.new) }
        ensures sound { honest → IfOk result (λ n. n ≡ length bytes.now →
            StaysAt (side_of file.now) (sound self.old) (sound self.new)) }
        ensures other_sound { honest → StaysAt (other (side_of file.now)) (sound self.old) (sound self.new) };

    /// Cuts a file to a length. It may do nothing where that is the length now.
    fn set_len(&mut self, file: &Self::File, len: usize) -> io::Result<()>
        requires { honest → len ≤ length (held self.old (side_of file.now)) }
        ensures cut { honest → OnOk result
            (held self.new (side_of file.now) ≡ take len (held self.old (side_of file.now))) }
        ensures other { honest →
            held self.new (other (side_of file.now)) ≡ held self.old (other (side_of file.now)) }
        ensures passes { honest → len < length (held self.old (side_of file.now)) → OnOk result (Passes
            (after_cut (side_of file.now) len (moments self.old)) (moments self.old) (moments self.new)) }
        ensures moments { honest → MayPass
            (after_cut (side_of file.now) len (moments self.old)) (moments self.old) (moments self.new) }
        ensures missing { honest → Stays (missing self.old) (missing self.new) }
        ensures durable { honest → Stays (durable self.old) (durable self.new) }
        ensures sound { honest → OnOk result (StaysAt (side_of file.now) (sound self.old) (sound self.new)) }
        ensures other_sound { honest → StaysAt (other (side_of file.now)) (sound self.old) (sound self.new) };

    /// Brings a file's bytes and length to the disk. Its name has to be there already.
    fn sync(&mut self, file: &Self::File) -> io::Result<()>
        requires durable { honest → durable self.old (side_of file.now) ≡ true }
        requires sound { honest → sound self.old (side_of file.now) ≡ true }
        ensures held { honest → held self.new ≡ held self.old }
        ensures passes { honest → OnOk result (Passes
            (after_sync (side_of file.now) (held self.old (side_of file.now)) (moments self.old))
            (moments self.old) (moments self.new)) }
        ensures failed { honest → OnErr result (moments self.new ≡ moments self.old) }
        ensures missing { honest → Stays (missing self.old) (missing self.new) }
        ensures durable { honest → Stays (durable self.old) (durable self.new) }
        ensures sound { honest → OnOk result (StaysAt (side_of file.now) (sound self.old) (sound self.new)) }
        ensures other_sound { honest → StaysAt (other (side_of file.now)) (sound self.old) (sound self.new) };

    /// Brings a file's name to the disk, by a sync of the folder that it stands in. Where it fails, a later sync of the
    /// folder may do nothing, also for the other side.
    fn sync_name(&mut self, file: &Self::File) -> io::Result<()>
        requires { honest → sound self.old (side_of file.now) ≡ true }
        ensures named { honest → OnOk result (durable self.new (side_of file.now) ≡ true) }
        ensures held { honest → held self.new ≡ held self.old }
        ensures moments { honest → moments self.new ≡ moments self.old }
        ensures missing { honest → Stays (missing self.old) (missing self.new) }
        ensures durable { honest → Stays (durable self.old) (durable self.new) }
        ensures sound { honest → OnOk result (Stays (sound self.old) (sound self.new)) };

    /// Brings to the disk that a side has no file, by the same call.
    fn sync_missing(&mut self, side: Which) -> io::Result<()>
        requires missing { honest → missing self.old side ≡ true }
        requires sound { honest → sound self.old side ≡ true }
        ensures held { honest → held self.new ≡ held self.old }
        ensures passes { honest → OnOk result (Passes
            (after_sync side (held self.old side) (moments self.old)) (moments self.old) (moments self.new)) }
        ensures failed { honest → OnErr result (moments self.new ≡ moments self.old) }
        ensures missing { honest → Stays (missing self.old) (missing self.new) }
        ensures durable { honest → Stays (durable self.old) (durable self.new) }
        ensures sound { honest → OnOk result (Stays (sound self.old) (sound self.new)) };

    /// A side without a file reads as empty.
    ghost missing_holds_none: { (folder : Self) → honest → (side : Side) → missing folder side ≡ true → held folder side ≡ [] };

    /// A file whose name isn't on the disk may be lost as a whole.
    ghost lost: { (folder : Self) → honest → (side : Side) →
        durable folder side ≡ false → (writes_of side (now (moments folder))).least ≤ 0 };

    /// What reads give is a crash image.
    ghost held_is_image: { (folder : Self) →
        honest → (side : Side) → IsCrashImage (writes_of side (now (moments folder))) (held folder side) };
}
