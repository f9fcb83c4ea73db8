// Parts that the plain check has read, and how they make a larger one. Where a part is missing, or the rules forbid it, nothing was
// read.
#![tactic(auto)]

ghost use Rattle.std.specs.Prelude.{◌≡◌, true, ◌+◌, ◌<◌, ◌^◌};
ghost use Rattle.plain_parts.specs.Parts.{bytes_of, JoinFits, FitBehind, ReadWithin, leaf, found, adjoined, behind, divided, scripted, closed, enclosed_script};

// What was read: its bytes and atoms, and what the rules ask of it. It is lone if it is one atom, and wrapped if it is one atom in
// parentheses. No part is both, but an enum of the three cases would say more: in `closed` the one flag becomes the other.
#[derive(Clone, Copy)]
pub struct PlainPart {
    pub used: usize,
    pub atoms: usize,
    pub lone: bool,
    pub wrapped: bool,
    pub scriptless: bool,
}

// A part, `gap` bytes and the part after them.
pub fn adjoined(p: PlainPart, gap: usize, r: Option<PlainPart>) -> Option<PlainPart>
    requires { JoinFits p gap r }
    ensures { result ≡ adjoined p gap r }
{
    let q = r?;
    Some(PlainPart {
        used: p.used + gap + q.used,
        atoms: p.atoms + q.atoms,
        lone: false,
        wrapped: false,
        scriptless: p.scriptless && q.scriptless,
    })
}

// What was read behind `front` and a gap, joined to it. With nothing in front, it stands by itself.
pub fn behind(front: Option<PlainPart>, gap: usize, r: Option<PlainPart>) -> Option<PlainPart>
    requires { FitBehind front gap r }
    ensures { result ≡ behind front gap r }
{
    let Some(p) = front else {
        return r;
    };
    adjoined(p, gap, r)
}

// A numerator, the slash and the denominator. Neither operand is an atom in parentheses.
pub fn divided(p: PlainPart, r: Option<PlainPart>) -> Option<PlainPart>
    requires { JoinFits p 1 r }
    ensures { result ≡ divided p r }
{
    let q = r?;
    if p.wrapped || q.wrapped {
        return None;
    }
    adjoined(p, 1, r)
}

// An atom of n bytes and its scripts.
pub fn scripted(n: usize, r: Option<PlainPart>) -> Option<PlainPart>
    requires { JoinFits (leaf n 1 true) 0 r }
    ensures { result ≡ scripted (leaf n 1 true) r }
{
    let q = r?;
    Some(PlainPart {
        used: n + q.used,
        atoms: 1 + q.atoms,
        lone: q.scriptless,
        wrapped: false,
        scriptless: q.scriptless,
    })
}

// A sum in parentheses: s begins behind the first of them.
pub fn closed(s: &[u8], r: Option<PlainPart>) -> Option<PlainPart>
    requires { ReadWithin r s.now }
    ensures { result ≡ closed s.now r }
{
    let p = r?;
    if text_search::symbol(s, p.used) != b')' {
        return None;
    }
    Some(PlainPart {
        used: p.used + 2,
        atoms: p.atoms,
        lone: false,
        wrapped: p.lone,
        scriptless: p.scriptless,
    })
}

// A sum in parentheses as a script, behind its sign. No script occurs in it.
pub fn enclosed_script(r: Option<PlainPart>) -> Option<PlainPart>
    requires { bytes_of r + 1 < 2 ^ 64 }
    ensures { result ≡ enclosed_script r }
{
    let p = r?;
    if !p.scriptless {
        return None;
    }
    Some(PlainPart {
        used: p.used + 1,
        atoms: p.atoms,
        lone: false,
        wrapped: false,
        scriptless: false,
    })
}

// A part that is no more than its bytes: an atom, a script of one byte, or a script that is not there.
pub fn leaf(n: usize, atoms: usize, scriptless: bool) -> Option<PlainPart>
    ensures { result ≡ found (leaf n atoms scriptless) }
{
    Some(PlainPart {
        used: n,
        atoms,
        lone: 0 < atoms,
        wrapped: false,
        scriptless,
    })
}
