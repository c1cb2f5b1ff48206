//! The data of the pages.

use serde::Serialize;
use std::alloc::{AllocError, Global};

/// A shop: the data of the index.
#[derive(Drop, Serialize)]
pub struct Shop {
    pub name: &'static str,
    pub products: Vec<Product>,
}

/// A product. An amount of money is a whole number of cents.
#[derive(Drop, Serialize)]
pub struct Product {
    pub id: &'static str,
    pub name: &'static str,
    pub about: &'static str,
    pub cents: u64,
    pub stock: u32,
}

/// The data of a product's page.
#[derive(Drop, Serialize)]
pub struct ProductPage<'a> {
    pub shop: &'a str,
    pub product: &'a Product,
}

/// Returns the shop of this example. Another program would read its products from somewhere.
pub fn sample_shop(alloc: Global) -> Result<Shop, AllocError> {
    let sencha = Product {
        id: "sencha",
        name: "Sencha",
        about: "A green tea from Uji, \"steamed & rolled\".",
        cents: 1250,
        stock: 12,
    };
    let assam = Product {
        id: "assam",
        name: "Assam <second flush>",
        about: "A black tea with malt.",
        cents: 905,
        stock: 0,
    };
    let pot = Product {
        id: "pot",
        name: "Teapot",
        about: "Cast iron, 0.8 litres.",
        cents: 4900,
        stock: 3,
    };
    Ok(Shop {
        name: "Leaf & Pot",
        products: vec![in alloc; sencha, assam, pot]?,
    })
}
