//! The sample registry: four formats with invented identifiers, for trying.

ghost use Rattle.std.specs.Prelude.{◌≡◌};
ghost use Rattle.droid_cmd_serve.specs.Sample.{sample};

/// Returns the bytes of the sample registry, a file of 14 records. Allocates nothing.
pub fn sample_registry() -> &'static [u8]
    ensures { result.now ≡ sample }
{
    SAMPLE.as_bytes()
}

/// The same bytes are in `specs/Sample.antt`, which the prover ties, and in `tests/program/sample_registry.csv`, with
/// which the tests' model answers.
const SAMPLE: &str = "\
F,dev/1,Message,1,,
E,dev/1,msg,,,
S,dev/1,BOF,0,0,6D657373616765
F,dev/2,Alphabet,,,
E,dev/2,abc,,,
E,dev/2,alp,,,
S,dev/2,BOF,0,0,616263
B,dev/2,EOF,0,0,78797A
F,dev/3,Letters,,,
E,dev/3,let,,,
S,dev/3,BOF,0,4,[61:63]??{0-2}64
P,dev/2,dev/3,,,
F,dev/4,Plain,,text/plain,
E,dev/4,txt,,,
";
