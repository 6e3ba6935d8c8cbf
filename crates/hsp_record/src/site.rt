// Site records, seen as their fields.

ghost use Rattle.std.specs.Prelude.{◌≡◌, ◌<◌, ◌≤◌, length, Some, slice_get};

use std::marker::Model;

/// An attribute of a site and its value.
#[derive(Drop)]
pub(crate) struct Attribute {
    pub(crate) name: Vec<u8>,
    pub(crate) value: Vec<u8>,
}

impl Model for Attribute {
    ghost use Rattle.hsp_record.specs.Site.{AttributePair};

    ghost Value = { AttributePair };

    ghost view = { λ a. record { name = a.name.items; value = a.value.items } };
}

/// A service interface of a server.
#[derive(Drop)]
pub(crate) struct ServiceInterface {
    pub(crate) service_type: u8,
    pub(crate) protocol: u8,
    pub(crate) port: u32,
}

impl Model for ServiceInterface {
    ghost use Rattle.hsp_record.specs.Site.{Interface};

    ghost Value = { Interface };

    ghost view = { λ i. record {
      service_type = i.service_type;
      protocol = i.protocol;
      port = i.port;
    } };
}

/// A server record of a site (RFC 3651, section 3.2.2).
#[derive(Drop)]
pub struct ServerRecord {
    pub(crate) id: u32,
    pub(crate) address: [u8; 16],
    pub(crate) key: Vec<u8>,
    pub(crate) interfaces: Vec<ServiceInterface>,
}

impl Model for ServerRecord {
    ghost use Rattle.hsp_record.specs.Site.{Server};

    ghost Value = { Server };

    ghost view = { λ s. record {
      id = s.id;
      address = s.address;
      key = s.key.items;
      interfaces = s.interfaces.items;
    } };
}

impl ServerRecord {
    /// The ServerID.
    pub fn id(&self) -> u32
        ensures { result ≡ self.now.id }
    {
        self.id
    }

    /// The address, most significant octet first.
    pub fn address(&self) -> [u8; 16]
        ensures { result ≡ self.now.address }
    {
        self.address
    }

    /// The public key record.
    pub fn key(&self) -> &[u8]
        ensures { result.now ≡ self.now.key }
    {
        &self.key
    }

    /// How many service interfaces the server has.
    pub fn interface_count(&self) -> usize
        ensures { result ≡ length self.now.interfaces }
    {
        self.interfaces.len()
    }

    /// The service type, transmission protocol and port of the interface at place `k`.
    pub fn interface(&self, k: usize) -> (u8, u8, u32)
        requires { k < length self.now.interfaces }
        ensures { slice_get self.now.interfaces k
            ≡ Some (record { service_type = result.0; protocol = result.1; port = result.2 }) }
    {
        let interface = &self.interfaces[k];
        (interface.service_type, interface.protocol, interface.port)
    }
}

/// HS_SITE data (RFC 3651, section 3.2.2): a site of at most 1,024 servers.
#[derive(Drop)]
pub struct SiteRecord {
    pub(crate) version: u16,
    pub(crate) protocol: (u8, u8),
    pub(crate) serial: u16,
    pub(crate) mask: u8,
    pub(crate) option: u8,
    pub(crate) filter: Vec<u8>,
    pub(crate) attributes: Vec<Attribute>,
    pub(crate) servers: Vec<ServerRecord>,
}

impl Model for SiteRecord {
    ghost use Rattle.hsp_record.specs.Site.{Site, IsSite};

    ghost Value = { Site };

    ghost view = { λ s. record {
      version = s.version;
      major = s.protocol.0;
      minor = s.protocol.1;
      serial = s.serial;
      mask = s.mask;
      option = s.option;
      filter = s.filter.items;
      attributes = s.attributes.items;
      servers = s.servers.items;
    } };

    ghost invariant = { λ s. IsSite (record {
      version = s.version;
      major = s.protocol.0;
      minor = s.protocol.1;
      serial = s.serial;
      mask = s.mask;
      option = s.option;
      filter = s.filter.items;
      attributes = s.attributes.items;
      servers = s.servers.items;
    }) };
}

impl SiteRecord {
    /// The version of the format of HS_SITE data.
    pub fn version(&self) -> u16
        ensures { result ≡ self.now.version }
    {
        self.version
    }

    /// The protocol version, major and minor.
    pub fn protocol(&self) -> (u8, u8)
        ensures major { result.0 ≡ self.now.major }
        ensures minor { result.1 ≡ self.now.minor }
    {
        self.protocol
    }

    /// The serial number.
    pub fn serial(&self) -> u16
        ensures { result ≡ self.now.serial }
    {
        self.serial
    }

    /// The PrimaryMask.
    pub fn mask(&self) -> u8
        ensures { result ≡ self.now.mask }
    {
        self.mask
    }

    /// The octet of the HashOption, whatever its value.
    pub fn option_octet(&self) -> u8
        ensures { result ≡ self.now.option }
    {
        self.option
    }

    /// The HashFilter.
    pub fn filter(&self) -> &[u8]
        ensures { result.now ≡ self.now.filter }
    {
        &self.filter
    }

    /// How many attributes the site has.
    pub fn attribute_count(&self) -> usize
        ensures { result ≡ length self.now.attributes }
    {
        self.attributes.len()
    }

    /// The attribute at place `i` and its value.
    pub fn attribute(&self, i: usize) -> (&[u8], &[u8])
        requires { i < length self.now.attributes }
        ensures { slice_get self.now.attributes i
            ≡ Some (record { name = result.0.now; value = result.1.now }) }
    {
        let attribute = &self.attributes[i];
        (&attribute.name, &attribute.value)
    }

    /// How many servers the site has, at most 1,024.
    pub fn server_count(&self) -> usize
        ensures count { result ≡ length self.now.servers }
        ensures limit { result ≤ 1024 }
    {
        self.servers.len()
    }

    /// The server at place `i`, counted from 0.
    pub fn server(&self, i: usize) -> &ServerRecord
        requires { i < length self.now.servers }
        ensures { slice_get self.now.servers i ≡ Some result.now }
    {
        &self.servers[i]
    }
}
