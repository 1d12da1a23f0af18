// The instructions, in the order of the crate's grammar comment: their names, for the print, and how many operands each takes. The search goes through neither
// table: the names that it compares with stand in code.
ghost use Rattle.std.specs.Prelude.{◌<◌};

const NAMES: &[&[u8]] = &[
    b"add",
    b"addnsw",
    b"addnuw",
    b"addnw",
    b"sub",
    b"subnsw",
    b"subnuw",
    b"subnw",
    b"mul",
    b"mulnsw",
    b"mulnuw",
    b"mulnw",
    b"udiv",
    b"sdiv",
    b"udivexact",
    b"sdivexact",
    b"urem",
    b"srem",
    b"and",
    b"or",
    b"xor",
    b"shl",
    b"shlnsw",
    b"shlnuw",
    b"shlnw",
    b"lshr",
    b"lshrexact",
    b"ashr",
    b"ashrexact",
    b"select",
    b"zext",
    b"sext",
    b"trunc",
    b"eq",
    b"ne",
    b"ult",
    b"slt",
    b"ule",
    b"sle",
    b"ctpop",
    b"bswap",
    b"bitreverse",
    b"cttz",
    b"ctlz",
    b"fshl",
    b"fshr",
    b"sadd.with.overflow",
    b"uadd.with.overflow",
    b"ssub.with.overflow",
    b"usub.with.overflow",
    b"smul.with.overflow",
    b"umul.with.overflow",
    b"sadd.sat",
    b"uadd.sat",
    b"ssub.sat",
    b"usub.sat",
    b"extractvalue",
    b"hole",
    b"freeze",
];

const ARITIES: [u8; 59] = *b"\
    \x02\x02\x02\x02\x02\x02\x02\x02\x02\x02\x02\x02\
    \x02\x02\x02\x02\x02\x02\
    \x02\x02\x02\
    \x02\x02\x02\x02\x02\x02\x02\x02\
    \x03\x01\x01\x01\
    \x02\x02\x02\x02\x02\x02\
    \x01\x01\x01\x01\x01\
    \x03\x03\
    \x02\x02\x02\x02\x02\x02\
    \x02\x02\x02\x02\
    \x02\x00\x01\
";

// An instruction, by its place in the table.
#[derive(Clone, Copy, Debug, PartialEq, Eq)]
pub struct Instruction {
    pub place: u8,
    pub ghost in_table: { place < 59 },
}

impl Instruction {
    ghost use Rattle.std.specs.Prelude.{◌≡◌, ◌≤◌, false, MatchOption};
    ghost use Rattle.rules.specs.Out.{Wrote};
    ghost use Rattle.rules.specs.Rows.{instruction_code};
    ghost use Rattle.rules.specs.WellFormed.{is_instruction};
    ghost use Rattle.rules.specs.Instructions.{arity_of, instruction_name};

    // The instruction at a place of the table; none past its end.
    pub fn at(place: usize) -> Option<Self>
        ensures { MatchOption result (59 ≤ place) (λ i. i.place ≡ place) }
    {
        if 59 <= place {
            return None;
        }
        Some(Instruction { place: place as u8 })
    }

    // The instruction that a row's code names, if it names one.
    pub fn of_code(code: u32) -> Option<Self>
        ensures { MatchOption result (is_instruction code ≡ false) (λ i. code ≡ instruction_code i.place) }
    {
        let place = code.checked_sub(1)?;
        Self::at(place as usize)
    }

    // The code of its rows.
    pub fn code(self) -> u32
        ensures { result ≡ instruction_code self.place }
    {
        self.place as u32 + 1
    }

    // Its name.
    pub fn name(self) -> &'static [u8]
        ensures { result.now ≡ instruction_name self.place }
    {
        NAMES[self.place as usize]
    }

    // How many operands it takes.
    pub fn arity(self) -> usize
        ensures { result ≡ arity_of self.place }
    {
        ARITIES[self.place as usize] as usize
    }

    // Writes its name at the front of an output that has room for it, and answers the name's length.
    pub fn put(self, out: &mut [u8]) -> usize
        ensures { Wrote (instruction_name self.place) out.old out.new result }
    {
        output::put(self.name(), out)
    }
}
