// A worked service of two sites, E of two and W of three servers, which both hash the local name.

/// E has the servers 7 and 3, W the servers 1, 2 and 9.
pub const SETTINGS: &[u8] = b"[[site]]\nname = \"E\"\n\
    record = \"0001020000010001000000000000000000000002000000070000000000000000000000000000000100000000000000000000000\
    3000000000000000000000000000000010000000000000000\"\n[[site]]\nname = \"W\"\n\
    record = \"0001020000010001000000000000000000000003000000010000000000000000000000000000000200000000000000000000000\
    200000000000000000000000000000002000000000000000000000009000000000000000000000000000000020000000000000000\"\n";

/// Three rows of two regions.
pub const DEMAND: &[u8] = b"region,handle,count\nr1,10/1,5\nr1,10/2,4\nr2,10/3,3\n";

/// Both regions may use both sites.
pub const COSTS: &[u8] = b"region,site,cost\nr1,E,1\nr1,W,4\nr2,E,2\nr2,W,3\n";

/// What each server takes.
pub const CAPACITY: &[u8] = b"site,server_id,capacity\nE,7,10\nE,3,6\nW,1,2\nW,2,10\nW,9,10\n";

/// A host on which the servers of E stand, which takes 8.
pub const HOST: &[u8] = b"[[host]]\naddress = \"00000000000000000000000000000001\"\nlimit = 8\n";

/// The settings of one site of one server.
pub const ONE_SERVER: &[u8] = b"[[site]]\nname = \"X\"\n\
    record = \"000102000001000100000000000000000000000100000007000000000000000000000000000000010000000000000000\"\n";

/// The texts of an instance; the hosts stand behind the sites in the settings.
#[derive(Clone, Copy)]
pub struct Texts<'a> {
    pub sites: &'a [u8],
    pub hosts: &'a [u8],
    pub demand: &'a [u8],
    pub costs: &'a [u8],
    pub capacity: &'a [u8],
}

/// The worked service, without hosts.
pub const BASE: Texts<'static> = Texts {
    sites: SETTINGS,
    hosts: b"",
    demand: DEMAND,
    costs: COSTS,
    capacity: CAPACITY,
};
