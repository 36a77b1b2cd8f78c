//! The plain program of the definitions, on cases that were worked out apart from it. What it answers is what the definitions say, so
//! these cases hold the definitions themselves to what is meant.

use crate::stops::some;
use hex::FromHex;
use reference::bit::{bit_root, is_bit_accepted, own_bit_proof};
use reference::check::is_accepted;
use reference::multi::{is_multi_accepted, own_multi_proof};
use reference::node::Ungrafted;
use reference::snapshot::{Snapshot, canonical_root, own_current};
use std::alloc::Global;
use std::process::Abort;
use storage_codec::codec::{Encode, FixedBytes};
use storage_codec::digest::Sha256;
use storage_merkle::merkle::{Bagging, Location, MAX_LEAVES, Proof, mmb, mmr};

type Digest = FixedBytes<32>;

/// Returns the bytes of a hexadecimal text.
fn bytes(rt: &impl Abort, alloc: Global, text: &str) -> Vec<u8> {
    some(rt, hex::decode(alloc, text))
}

/// Byte strings with commas between them.
pub fn strings(rt: &impl Abort, alloc: Global, text: &str) -> Vec<Vec<u8>> {
    let mut strings = Vec::new(alloc);
    for part in text.split(',') {
        some(rt, strings.push(bytes(rt, alloc, part)));
    }
    strings
}

/// Returns the digest of a hexadecimal text.
fn digest(rt: &impl Abort, text: &str) -> Digest {
    FixedBytes {
        bytes: some(rt, <[u8; 32] as FromHex>::from_hex(text)),
    }
}

/// Digests with commas between them.
fn digests(rt: &impl Abort, alloc: Global, text: &str) -> Vec<Digest> {
    let mut digests = Vec::new(alloc);
    for part in text.split(',') {
        some(rt, digests.push(digest(rt, part)));
    }
    digests
}

/// Eight updates of a database: tag, key, value, next key, padding.
const UPDATES: &str =
    "d20000000000000000000000000000000200,d20000000200000000000000010000000400,d20000000400000000000000020000000600,d20000000600000000000000030000000800,d20000000800000000000000040000000a00,d20000000a00000000000000050000000c00,d20000000c00000000000000060000000e00,d20000000e00000000000000070000001000";

#[test]
fn eight_operations_by_the_definitions(rt: HostRuntime) {
    let operations = strings(&rt, rt.alloc(), UPDATES);
    assert!(rt; operations.len() as u64 <= MAX_LEAVES);
    let snapshot = Snapshot {
        operations: operations.as_slice(),
        bits: &[false, false, false, true, false, false, false, false],
        floor: 0,
        chunk_size: 1,
    };
    let root = "157b0c513ca1eb207e2085404d92e38a0c6a9b8b2f50a5d115dce7c3dac0fcf1";
    let made = canonical_root::<mmr::Family, Sha256, Vec<u8>>(rt.alloc(), &snapshot);
    assert!(rt; some(&rt, made) == digest(&rt, root));
    let proof = own_current::<mmr::Family, Sha256, Vec<u8>>(rt.alloc(), &snapshot, 3, 4);
    let written = some(&rt, some(&rt, proof).encode(rt.alloc()));
    let right =
        "0800031418e156d167cd87e7d322c7c35a8f70bcef006b2040f63b632363a8f42ef9bc8c3e97d7af8150ddd0347a1f2431e6790fff938adba6f5af1113eb4158edcee111f04e94983e1a14ff617712266417a3215bfa1c65833ad46803141b6e990b8800e1df8e614a2512509b4d11a7b6f3ff877df67d3fb3a807260cd60d115d23f191";
    assert!(rt; written.as_slice() == bytes(&rt, rt.alloc(), right).as_slice());
}

#[test]
fn own_multi_proof_by_the_definitions(rt: HostRuntime) {
    let elements = strings(&rt, rt.alloc(), ",01,0202,030303,,05,0606,070707,,09,0a0a");
    assert!(rt; elements.len() as u64 <= MAX_LEAVES);
    let made = own_multi_proof::<mmr::Family, Sha256, Ungrafted, Vec<u8>>(
        rt.alloc(),
        &Ungrafted,
        elements.as_slice(),
        1,
        &[2, 9],
    );
    let proof = some(&rt, made);
    let right =
        "89fb1540710799878533f65d3f771243d743bf97828283d3c9b2aabff719edaa,80551ff557cd6b2cf7f565339f984e17ef2e8e784d923f436677bc11219b0654,95e0cc68a1bc355a86b1c51db9e871eced7b6416fad5a7ac11f0055a04f0f33a,e66c57014a6156061ae669809ec5d735e484e8fcfd540e110c9b04f84c0b4504,e6115abce3882db19c3239c3a3e11283b835dadbaa94299c9489a467f575daf9";
    assert!(rt; proof.digests.as_slice() == digests(&rt, rt.alloc(), right).as_slice());
}

/// The root of a belt of ten elements, three of whose peaks are inactive, folded from the left.
const TEN: &str = "07fdb9950553b39693e66402421d5dc41c5f4bb5b16c3531d442163ef889684c";

/// Returns a proof over that belt, of these digests.
fn over_ten(rt: &impl Abort, alloc: Global, text: &str) -> Proof<mmb::Family, Digest> {
    Proof {
        leaves: Location::new(10),
        inactive_peaks: 3,
        digests: digests(rt, alloc, text),
    }
}

/// Returns whether the definitions accept that `proof` is of `elements` of that belt, from the location `start` on.
fn is_of_ten(
    rt: &impl Abort,
    alloc: Global,
    proof: &Proof<mmb::Family, Digest>,
    start: u64,
    elements: &[Vec<u8>],
) -> bool {
    let accepted = is_accepted::<mmb::Family, Sha256, Ungrafted, Vec<u8>>(
        alloc,
        &Ungrafted,
        Bagging::ForwardFold,
        proof,
        start,
        elements,
        &digest(rt, TEN),
    );
    some(rt, accepted)
}

#[test]
fn range_accepted_by_the_definitions(rt: HostRuntime) {
    let text =
        "3f209a02b4a828b9962bd952ca6fc33bb63fc7dc845f9887aa1254f23dfbb0fb,eee9aa3d96fa83693057d625f67cd7d9e97cd3884e4095756ba86d4634d97608,800de3ab20381604fcc0529171c599bf660f05624b72b0951be6b8e8811e1969";
    let proof = over_ten(&rt, rt.alloc(), text);
    let elements = strings(&rt, rt.alloc(), ",f0cd2c4b9540c228,1b");
    assert!(rt; is_of_ten(&rt, rt.alloc(), &proof, 7, &elements));
    assert!(rt; !is_of_ten(&rt, rt.alloc(), &proof, 6, &elements));
}

/// Five elements of that belt, in hexadecimal, and their locations.
const CLAIMS: [(&str, u64); 5] = [
    ("49a283f79d98ee92", 0),
    ("78517ea90187699b", 2),
    (
        "d6bae721f5c1de5e52c70c7282a1aa0713cf89a653d71ab881be09408f0866e1e55cb149159c28c6",
        4,
    ),
    (
        "ff1ffa333353091821427c737fba01f372963eed53a821ba7793663b6b43cd013266a2621886f5bd",
        6,
    ),
    ("", 7),
];

/// Returns these elements and their locations.
fn claims(rt: &impl Abort, alloc: Global) -> Vec<(Vec<u8>, Location<mmb::Family>)> {
    let mut claims = Vec::new(alloc);
    for (element, location) in CLAIMS {
        let claim = (bytes(rt, alloc, element), Location::new(location));
        some(rt, claims.push(claim));
    }
    claims
}

#[test]
fn multi_proof_accepted_by_the_definitions(rt: HostRuntime) {
    let text =
        "54587f31a09dbe3739a0f6e225a8e35a0ec8ce4620939292d54315fd82310e66,0867d0ad4958978bd42abf8feeef99e2a558d96536b69c170dfaf79cb395b787,773d1eb5d5086d98dfd3bd020bd228c0529f703f6a637670745e4c52deaf0cab,b58c2ea7a21088ec1479948a84937b7ed3ed0d2899204367170166c17ffe7a81";
    let proof = over_ten(&rt, rt.alloc(), text);
    let claims = claims(&rt, rt.alloc());
    let accepted = is_multi_accepted::<mmb::Family, Sha256, Ungrafted, Vec<u8>>(
        rt.alloc(),
        &Ungrafted,
        Bagging::ForwardFold,
        &proof,
        claims.as_slice(),
        &digest(&rt, TEN),
    );
    assert!(rt; some(&rt, accepted));
}

/// 64 bits, the first one first.
fn bits() -> [bool; 64] {
    let chunks: u64 = 0x1c38_2048_1469_dda2;
    let mut bits = [false; 64];
    let mut place = 0u32;
    for bit in &mut bits {
        *bit = chunks.wrapping_shr(place) & 1 == 1;
        place = place.wrapping_add(1);
    }
    bits
}

#[test]
fn bits_by_the_definitions(rt: HostRuntime) {
    let bits = bits();
    let root = digest(
        &rt,
        "84e177b38e9642759cef3bb4b1154aeb37df1a19fe50b7dd11ea1ee3e02df5a1",
    );
    let made = bit_root::<Sha256>(rt.alloc(), Bagging::ForwardFold, 1, &bits);
    assert!(rt; some(&rt, made) == root);
    let made = own_bit_proof::<Sha256>(rt.alloc(), Bagging::ForwardFold, 1, &bits, 0);
    let proof = some(&rt, made);
    let right =
        "ee6fe5bb1e93689b2746e71a9574f9095a88a7aaf6f5fddffd9b55dc0ac34684,bcf66eeee019e67a94ad508a5636f3b917d830627463f2ebca8a84440b222080,9c059f854b085756ce972081175c591905a5b328c19b6bc30dbb3b477157a9ab";
    assert!(rt; proof.digests.as_slice() == digests(&rt, rt.alloc(), right).as_slice());
    let accepted = is_bit_accepted::<Sha256>(
        rt.alloc(),
        Bagging::ForwardFold,
        1,
        &proof,
        &[0xa2],
        0,
        &root,
    );
    assert!(rt; some(&rt, accepted));
}
