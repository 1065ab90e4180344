//! The sample registry, which tests identify files with.

/// A registry file of four formats with invented PUIDs: the same bytes as tests/program/sample_registry.csv.
pub const SAMPLE: &str = "F,dev/1,Message,1,,\n\
E,dev/1,msg,,,\n\
S,dev/1,BOF,0,0,6D657373616765\n\
F,dev/2,Alphabet,,,\n\
E,dev/2,abc,,,\n\
E,dev/2,alp,,,\n\
S,dev/2,BOF,0,0,616263\n\
B,dev/2,EOF,0,0,78797A\n\
F,dev/3,Letters,,,\n\
E,dev/3,let,,,\n\
S,dev/3,BOF,0,4,[61:63]??{0-2}64\n\
P,dev/2,dev/3,,,\n\
F,dev/4,Plain,,text/plain,\n\
E,dev/4,txt,,,\n";
