//! What holds of records and their bytes, beside what a call answers. Nothing here runs: each body is empty.

ghost use Rattle.std.specs.Prelude.{◌≡◌, ◌<◌, ◌≤◌, ◌⊎◌, List, ℕ, ◌++◌, All, length, take};
ghost use Rattle.st_records.specs.declared.version.Version.{Version};
ghost use Rattle.st_records.specs.declared.version.Form.{Form};
ghost use Rattle.st_records.specs.declared.version.Version.TheVariants as versions;
ghost use Rattle.st_records.specs.declared.limits.TheConstants as limits;
ghost use Rattle.st_records.specs.declared.fault.DecodeFault.{DecodeFault};
ghost use Rattle.st_records.specs.declared.record.Record.{Record};
ghost use Rattle.st_records.specs.Encoding.{encoding, encoding_in};
ghost use Rattle.st_records.specs.Faults.{HasFault, HasFaultIn};
ghost use Rattle.st_records.specs.Limits.{max_name_bytes, max_record_bytes, IsGood, IsGoodIn, Encodes, EncodesIn};

/// Within a version no two good records have one encoding, and none begins another: whatever stands behind them, the
/// front of some bytes is the encoding of one good record at most.
pub fn one_encoding()
    ensures { (version : Version) (r s : Record) (x y : List ℕ) → IsGood version r → IsGood version s → encoding version r ++ x ≡ encoding version s ++ y → (r ≡ s) × (x ≡ y) }
{}

/// The same of a form, so also of records with marks.
pub fn one_encoding_in()
    ensures { (form : Form) (r s : Record) (x y : List ℕ) → IsGoodIn form r → IsGoodIn form s → encoding_in form r ++ x ≡ encoding_in form s ++ y → (r ≡ s) × (x ≡ y) }
{}

/// Bytes have one fault at most, and none where a good record stands at their front.
pub fn one_fault()
    ensures one { (version : Version) (bytes : List ℕ) (f g : DecodeFault) → HasFault version f bytes → HasFault version g bytes → f ≡ g }
    ensures none { (version : Version) (bytes : List ℕ) (f : DecodeFault) (r : Record) (n : ℕ) → HasFault version f bytes → Encodes version r (take n bytes) → ⊥ }
{}

/// The same of a form.
pub fn one_fault_in()
    ensures one { (form : Form) (bytes : List ℕ) (f g : DecodeFault) → HasFaultIn form f bytes → HasFaultIn form g bytes → f ≡ g }
    ensures none { (form : Form) (bytes : List ℕ) (f : DecodeFault) (r : Record) (n : ℕ) → HasFaultIn form f bytes → EncodesIn form r (take n bytes) → ⊥ }
{}

/// Bytes have an answer: a good record stands at their front, or they have a fault.
pub fn each_answered()
    ensures { (version : Version) (bytes : List ℕ) → All (λ byte. byte < 256) bytes → ((r : Record) × (n : ℕ) × (n ≤ length bytes) × Encodes version r (take n bytes)) ⊎ ((f : DecodeFault) × HasFault version f bytes) }
{}

/// The same of a form.
pub fn each_answered_in()
    ensures { (form : Form) (bytes : List ℕ) → All (λ byte. byte < 256) bytes → ((r : Record) × (n : ℕ) × (n ≤ length bytes) × EncodesIn form r (take n bytes)) ⊎ ((f : DecodeFault) × HasFaultIn form f bytes) }
{}

/// The limits in numbers.
pub fn limits_in_numbers()
    ensures names { (max_name_bytes versions.One ≡ 4096) × (max_name_bytes versions.Two ≡ 65535) }
    ensures records { (max_record_bytes versions.One ≡ 1048576) × (max_record_bytes versions.Two ≡ 16777216) }
    ensures commands { (limits.MAX_COMMAND_BYTES ≡ 65535) × (limits.MAX_COMMANDS ≡ 1000) }
    ensures lists { (limits.MAX_HIDDEN_NAMES ≡ 4096) × (limits.MAX_EXPLICIT_NAMES ≡ 65536) }
{}
