// The worked examples, proved as one list.
ghost use Rattle.std.specs.Prelude.{◌≡◌, length};
ghost use Rattle.cbeam.specs.Phi5.{Phi5Agrees};
ghost use Rattle.cbeam128r1.specs.Vectors.{vectors, Each};

// How many worked examples are proved. Each of them holds, and the polynomial of φ5 has its truth table.
#[tactic(auto, using(crate::proofs::Examples::vectors_hold, cbeam::proofs::Phi5Table::phi5_agrees))]
pub fn proved() -> usize
    ensures count { result ≡ length vectors }
    ensures every_row_holds { Each vectors }
    ensures phi5_has_its_table { Phi5Agrees }
{
    14
}
