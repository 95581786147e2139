// Theorems on the form of a book, each as a function whose contract says it.
ghost use Rattle.std.specs.Prelude.{◌≡◌, ℕ, ◌<◌, ◌≤◌, List, [], ◌∷◌, length, take, Some, None};
ghost use Rattle.leaf.specs.AccessionNumbers.{number_of, number_bytes};
ghost use Rattle.leaf.specs.Bytes.{Bytes};
ghost use Rattle.theory.specs.Entries.{Entry, BookRules};
ghost use Rattle.form.specs.Forms.{book_form};
ghost use Rattle.form.specs.Meanings.{meaning};
ghost use Rattle.form.specs.Samples.{sample_bytes, sample_entry, sample_meaning, sample_cut_off, cut_off_meaning};
ghost use Rattle.form.specs.declared.fault.Fault.{Fault as FaultValue};

use leaf::kind::WireLeaf;

// Whatever the bytes are, the entries that they mean keep the rules of a book.
pub fn meanings_keep_the_rules<L: WireLeaf>()
    ensures { (bs : List ℕ) → Bytes bs → BookRules (meaning L.WireLeaf.wide L.WireLeaf.reading bs).entries }
{}

// The form of a book that keeps the rules means that book, if it has no more than 65,535 bytes.
pub fn forms_read_back<L: WireLeaf>()
    ensures { (es : List (Entry L)) → BookRules es → length (book_form L.WireLeaf.written es) ≤ 65535 → meaning L.WireLeaf.wide L.WireLeaf.reading (book_form L.WireLeaf.written es) ≡ record { entries = es; first_fault = None } }
{}

// Bytes without a fault are the form of the entries that they mean.
pub fn meanings_write_back<L: WireLeaf>()
    ensures { (bs : List ℕ) → Bytes bs → (meaning L.WireLeaf.wide L.WireLeaf.reading bs).first_fault ≡ None → bs ≡ book_form L.WireLeaf.written (meaning L.WireLeaf.wide L.WireLeaf.reading bs).entries }
{}

// A book has one form: bytes without a fault that mean the same are the same.
pub fn books_have_one_form<L: WireLeaf>()
    ensures { (xs ys : List ℕ) → Bytes xs → Bytes ys → (meaning L.WireLeaf.wide L.WireLeaf.reading xs).first_fault ≡ None → meaning L.WireLeaf.wide L.WireLeaf.reading xs ≡ meaning L.WireLeaf.wide L.WireLeaf.reading ys → xs ≡ ys }
{}

// Bytes with a fault or without begin with the form of the entries that they mean.
pub fn bytes_begin_with_their_entries<L: WireLeaf>()
    ensures { (bs : List ℕ) → Bytes bs → take (length (book_form L.WireLeaf.written (meaning L.WireLeaf.wide L.WireLeaf.reading bs).entries)) bs ≡ book_form L.WireLeaf.written (meaning L.WireLeaf.wide L.WireLeaf.reading bs).entries }
{}

// A fault counts the entries before it, and its place is one of the bytes', after the form of those entries.
pub fn faults_tell_where<L: WireLeaf>()
    ensures { (bs : List ℕ) (x : FaultValue) → Bytes bs → (meaning L.WireLeaf.wide L.WireLeaf.reading bs).first_fault ≡ Some x → (x.entry ≡ length (meaning L.WireLeaf.wide L.WireLeaf.reading bs).entries) × (length (book_form L.WireLeaf.written (meaning L.WireLeaf.wide L.WireLeaf.reading bs).entries) ≤ x.place) × (x.place < length bs) }
{}

// Sixteen bytes over accession numbers that mean one co-fact and are its form; the first fifteen have a fault at once.
pub fn sample_means_one_cofact()
    ensures means { meaning 4 number_of sample_bytes ≡ sample_meaning }
    ensures form { book_form number_bytes (sample_entry ∷ []) ≡ sample_bytes }
    ensures cut { meaning 4 number_of sample_cut_off ≡ cut_off_meaning }
{}
